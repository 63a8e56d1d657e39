// Lists a book into a lent buffer.
#![tactic(auto)]

ghost use Rattle.std.specs.Prelude.{◌≡◌, length};
ghost use Rattle.book_listing.specs.{listing_of};
ghost use Rattle.refusals.specs.{written, buffer_after};
ghost use Rattle.statement_write.specs.{writable};

use book_listing::LONGEST_BOOK;
use refusals::{Refusal, Written};
use statement_field::START_WIDTH;

// A line's number, a refusal's and a total of units, with the byte that ends them.
const LINE_NUMBER: usize = 6;

const REFUSAL_NUMBER: usize = 3;

const TOTAL_OF_UNITS: usize = 14;

// What a line prints at most for each of its bytes and for its end, which is what an X line takes, and what the foot and E take at most.
const MOST_FOR_BYTE: usize = START_WIDTH + LINE_NUMBER + REFUSAL_NUMBER;

const MOST_FOR_FOOT: usize = START_WIDTH + 3 * TOTAL_OF_UNITS;

const MOST_FOR_END: usize = START_WIDTH + 2 * LINE_NUMBER;

// Room for any listing, in bytes: a book's last line may lack its end.
pub const ROOM: usize = MOST_FOR_BYTE * (LONGEST_BOOK + 1) + MOST_FOR_FOOT + MOST_FOR_END;

// Writes the listing to the front of `out`: how many bytes it has, or why it is not written. Where there is room for any listing it is not measured.
pub fn list(book: &[u8], out: &mut [u8]) -> Written
    ensures value { result ≡ written (writable (listing_of book.now) (length out.old)) (listing_of book.now) }
    ensures out_after { out.new ≡ buffer_after (writable (listing_of book.now) (length out.old)) (listing_of book.now) out.old }
{
    if ROOM <= out.len() {
        let count = book_parts::put_listing(book, out);
        return Ok(count);
    }
    let mut unkept = [0u8; 1];
    let need = book_parts::put_listing(book, &mut unkept);
    if out.len() < need {
        return Err(Refusal::OutputShort);
    }
    let count = book_parts::put_listing(book, out);
    Ok(count)
}
