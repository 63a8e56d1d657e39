// The listing of a book, a part at a time or whole.
#![tactic(auto)]

ghost use Rattle.std.specs.Prelude.{◌+◌};
ghost use Rattle.text.specs.{Wrote};
ghost use Rattle.statement_field.specs.{Put};
ghost use Rattle.book_print.specs.{refusal_width, pair_width};
ghost use Rattle.book_listing.specs.{closing, listing_of, refused_book};
ghost use Rattle.book_reached.specs.{run_of};
ghost use Rattle.book_parts.specs.{closing_width, part_of, Whole, ComesTo};

use book_listing::LONGEST_BOOK;
use book_reached::Reached;
use book_run::Part;
use refusals::Refusal;

// How many lines a part lists at most, and room for what they print, for the foot and for E.
pub const PART_LINES: usize = 512;

pub const PART_ROOM: usize = PART_LINES * book_print::REPORT_WIDTH
    + book_print::FOOT_WIDTH
    + book_print::PAIR_WIDTH;

// Puts what is printed for a book that is not run.
fn put_refused(out: &mut [u8]) -> usize
    ensures { Put (refusal_width + pair_width) out.old 0 refused_book out.new result }
{
    let next = book_print::put_refusal(out, 0, 0, Refusal::Form);
    book_print::put_end(out, next, 0, 1)
}

// Puts what closes a listing: the foot, and E.
fn put_closing(out: &mut [u8], at: usize, reached: Reached) -> usize
    ensures { Put closing_width out.old at (closing (run_of reached)) out.new result }
{
    let holding = reached.holding;
    let next = book_foot::put_foot(out, at, holding);
    book_print::put_end(out, next, reached.accepted, reached.refused)
}

// Puts the next part of a book's listing, from a place on, where the lines before it have come to `reached`.
pub fn put_part(book: &[u8], next: usize, reached: Reached, out: &mut [u8; PART_ROOM]) -> Part
    ensures whole { Whole (part_of book.now next reached) out.old out.new result.count }
    ensures comes_to { ComesTo book.now next reached result }
{
    if book_reached::may_run(
        book.len(),
        next,
        reached.count,
        reached.accepted,
        reached.refused,
    ) {
        let part = book_run::put_lines(book, next, reached, PART_LINES, out, 0);
        if part.next < book.len() {
            return part;
        }
        let last = part.reached;
        let count = put_closing(out, part.count, last);
        return Part {
            count,
            next: part.next,
            reached: last,
        };
    }
    let count = put_refused(out);
    Part {
        count,
        next: book.len(),
        reached,
    }
}

// Puts the listing of any book; the answer is the place after it.
pub fn put_listing(book: &[u8], out: &mut [u8]) -> usize
    ensures { Wrote out.old 0 (listing_of book.now) out.new result }
{
    if LONGEST_BOOK < book.len() {
        return put_refused(out);
    }
    let nothing = book_reached::nothing_reached();
    let all = book_run::put_lines(book, 0, nothing, LONGEST_BOOK, out, 0);
    let last = all.reached;
    put_closing(out, all.count, last)
}
