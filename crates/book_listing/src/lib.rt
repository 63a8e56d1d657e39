// What is put for each line of a book.
#![tactic(auto)]

ghost use Rattle.std.specs.Prelude.{◌≡◌, ◌≤◌};
ghost use Rattle.book_print.specs.{report_width};
ghost use Rattle.statement_field.specs.{Put};
ghost use Rattle.book_listing.specs.{if_accepted, printed_for};

use refusals::Verdict;
use step_outcome::Outcome;

// The longest book, in bytes.
pub const LONGEST_BOOK: usize = 65536;

// Puts what is printed for a line, by its number in the book; the answer is the place after what was put.
pub fn put_line(out: &mut [u8], at: usize, number: u64, outcome: Outcome) -> usize
    ensures { Put report_width out.old at (printed_for number outcome.verdict outcome) out.new result }
{
    let verdict = outcome.verdict;
    let report = outcome.report;
    match verdict {
        Ok(()) => book_print::put_report(out, at, report),
        Err(refusal) => book_print::put_refusal(out, at, number, refusal),
    }
}

// One for a line that was accepted, none for a refused one.
pub fn counted(verdict: Verdict) -> u64
    ensures { (result ≡ if_accepted verdict 1 0) × (result ≤ 1) }
{
    match verdict {
        Ok(()) => 1,
        Err(_) => 0,
    }
}
