// The export of a book, written into a lent buffer.
#![tactic(auto)]

ghost use Rattle.std.specs.Prelude.{◌≡◌, ◌≤◌, length};
ghost use Rattle.refusals.specs.{written, buffer_after};
ghost use Rattle.text.specs.{Wrote};
ghost use Rattle.statement_write.specs.{writable};
ghost use Rattle.book_listing.specs.{longest_book};
ghost use Rattle.book_export.specs.{export_weighed, export_of};
ghost use Rattle.book_parts.specs.{Whole};
ghost use Rattle.call_output.specs.{Gives};
ghost use Rattle.sheet_export.specs.{sheet_printed};

use book_listing::LONGEST_BOOK;
use refusals::{Refusal, Written};

// What the heading takes, and what a line's row takes at most for each byte of the line and for its end.
const HEADING: usize = 42;

const MOST_FOR_BYTE: usize = 3;

// Room for any export, in bytes: a book's last line may lack its end.
pub const ROOM: usize = HEADING + MOST_FOR_BYTE * (LONGEST_BOOK + 1);

// Puts the heading, and behind it the rows of a book; the answer is the place after them.
fn put_export(book: &[u8], out: &mut [u8]) -> usize
    ensures { Wrote out.old 0 (export_of book.now) out.new result }
{
    let at = sheet_write::put_heading(out, 0);
    book_run::put_rows(book, out, at)
}

// Writes the export to the front of `out`: how many bytes it has, or why it is not written. Where there is room for any export it is not measured.
fn write_export(book: &[u8], out: &mut [u8]) -> Written
    requires { length book.now ≤ longest_book }
    ensures value { result ≡ written (writable (export_of book.now) (length out.old)) (export_of book.now) }
    ensures out_after { out.new ≡ buffer_after (writable (export_of book.now) (length out.old)) (export_of book.now) out.old }
{
    if ROOM <= out.len() {
        let count = put_export(book, out);
        return Ok(count);
    }
    let mut unkept = [0u8; 1];
    let need = put_export(book, &mut unkept);
    if out.len() < need {
        return Err(Refusal::OutputShort);
    }
    let count = put_export(book, out);
    Ok(count)
}

// Writes the export of a book to the front of `out`: how many bytes, or why nothing is written.
pub fn export(book: &[u8], out: &mut [u8]) -> Written
    ensures { Gives (export_weighed book.now) (export_of book.now) out.old result out.new }
{
    if LONGEST_BOOK < book.len() {
        return Err(Refusal::Form);
    }
    write_export(book, out)
}

// Puts what is printed for a book; the answer is the place after it.
pub fn put_sheet(book: &[u8], out: &mut [u8; ROOM]) -> usize
    ensures { Whole (sheet_printed book.now) out.old out.new result }
{
    if LONGEST_BOOK < book.len() {
        return book_print::put_refusal(out, 0, 0, Refusal::Form);
    }
    put_export(book, out)
}
