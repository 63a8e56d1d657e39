// What is printed of a line and of a book, put into a lent buffer at any place.
#![tactic(auto)]

ghost use Rattle.std.specs.Prelude.{◌∷◌, [], ◌+◌, ◌*◌};
ghost use Rattle.statement_format.specs.{start_text, number_text, joined, start_width, short_width, long_width};
ghost use Rattle.statement_field.specs.{Put};
ghost use Rattle.book_print.specs.{loss_text, change_text, report_text, pair_text, refusal_text, foot_text, end_text, change_width, report_width, pair_width, refusal_width, foot_width};
ghost use Rattle.text.specs.{comma, line_end};
ghost use Rattle.laws.specs.{code};

use refusals::Refusal;
use statement_field::{LONG_WIDTH, SHORT_WIDTH, START_WIDTH};
use step_outcome::Report;
use units::Change;

// What is printed for an accepted line, at most, in bytes: a return's is the longest.
pub const REPORT_WIDTH: usize = START_WIDTH + 3 * SHORT_WIDTH + 1 + 4 * LONG_WIDTH;

// A letter and two numbers, at most.
pub const PAIR_WIDTH: usize = START_WIDTH + 2 * LONG_WIDTH;

// The foot, at most.
pub const FOOT_WIDTH: usize = START_WIDTH + 3 * LONG_WIDTH;

// Puts what is said of a loss of tonnes; the answer, here and below, is the place after what was put.
fn put_loss(out: &mut [u8], at: usize, tonnes: u64) -> usize
    ensures { Put change_width out.old at (loss_text tonnes) out.new result }
{
    if tonnes == 0 {
        return statement_field::put_field(out, at, 0, b',');
    }
    let next = text::put_byte(out, at, b'-');
    statement_field::put_field(out, next, tonnes, b',')
}

fn put_change(out: &mut [u8], at: usize, change: Change) -> usize
    ensures { Put change_width out.old at (change_text change) out.new result }
{
    match change {
        Change::Gain(tonnes) => statement_field::put_field(out, at, tonnes, b','),
        Change::Loss(tonnes) => put_loss(out, at, tonnes),
    }
}

// R, the area and the first and last year of a return.
fn put_years(out: &mut [u8], at: usize, area: u16, first: u16, last: u16) -> usize
    ensures { Put (start_width + 3 * short_width) out.old at (joined (start_text (code "R") ∷ number_text area comma ∷ number_text first comma ∷ number_text last comma ∷ [])) out.new result }
{
    let next = statement_field::put_start(out, at, b'R');
    let next = statement_field::put_short(out, next, area, b',');
    let next = statement_field::put_short(out, next, first, b',');
    statement_field::put_short(out, next, last, b',')
}

// The units of a return, which end its line.
fn put_units(out: &mut [u8], at: usize, received: u64, due: u64, balance: u64) -> usize
    ensures { Put (3 * long_width) out.old at (joined (number_text received comma ∷ number_text due comma ∷ number_text balance line_end ∷ [])) out.new result }
{
    let next = statement_field::put_field(out, at, received, b',');
    let next = statement_field::put_field(out, next, due, b',');
    statement_field::put_field(out, next, balance, b'\n')
}

// Puts the line of an accepted R or W entry; of another, nothing.
pub fn put_report(out: &mut [u8], at: usize, report: Report) -> usize
    ensures { Put report_width out.old at (report_text report) out.new result }
{
    match report {
        Report::Nothing => at,
        Report::Return(filed) => {
            let change = filed.change;
            let next = put_years(out, at, filed.area, filed.first, filed.last);
            let next = put_change(out, next, change);
            put_units(out, next, filed.received, filed.due, filed.balance)
        }
        Report::Withdrawal { area, due } => {
            let next = statement_field::put_start(out, at, b'W');
            let next = statement_field::put_short(out, next, area, b',');
            statement_field::put_field(out, next, due, b'\n')
        }
    }
}

fn put_pair(out: &mut [u8], at: usize, letter: u8, a: u64, b: u64) -> usize
    ensures { Put pair_width out.old at (pair_text letter a b) out.new result }
{
    let next = statement_field::put_start(out, at, letter);
    let next = statement_field::put_field(out, next, a, b',');
    statement_field::put_field(out, next, b, b'\n')
}

// Puts the line of a refused line, by its number in the book.
pub fn put_refusal(out: &mut [u8], at: usize, line: u64, refusal: Refusal) -> usize
    ensures { Put refusal_width out.old at (refusal_text line refusal) out.new result }
{
    let number = u8::from(refusal);
    put_pair(out, at, b'X', line, number as u64)
}

// Puts the foot: the units received, the units surrendered and the balance over all areas.
pub fn put_foot(out: &mut [u8], at: usize, received: u64, surrendered: u64, balance: u64) -> usize
    ensures { Put foot_width out.old at (foot_text received surrendered balance) out.new result }
{
    let next = statement_field::put_start(out, at, b'F');
    let next = statement_field::put_field(out, next, received, b',');
    let next = statement_field::put_field(out, next, surrendered, b',');
    statement_field::put_field(out, next, balance, b'\n')
}

// Puts the book's last line: how many lines were accepted, and how many refused.
pub fn put_end(out: &mut [u8], at: usize, accepted: u64, refused: u64) -> usize
    ensures { Put pair_width out.old at (end_text accepted refused) out.new result }
{
    put_pair(out, at, b'E', accepted, refused)
}
