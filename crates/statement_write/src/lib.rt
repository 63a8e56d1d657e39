// Writes a holding as a statement. One set of functions measures and writes, since a byte past a buffer's end is not stored.
#![tactic(auto)]

ghost use Rattle.std.specs.Prelude.{◌≡◌, ◌≤◌, length};
ghost use Rattle.text.specs.{Wrote};
ghost use Rattle.statement_format.specs.{flag, years_text, amounts_text, area_text, statement_of, years_width, amounts_width, area_width, statement_width};
ghost use Rattle.statement_field.specs.{Put};
ghost use Rattle.refusals.specs.{written, buffer_after};
ghost use Rattle.statement_write.specs.{writable};

use holding::{Area, Holding, MOST_AREAS, MOST_SUBS};
use refusals::{Refusal, Written};
use statement_field::{LONG_WIDTH, SHORT_WIDTH, START_WIDTH};
use statement_sub::SUBS_WIDTH;

// What an area's lines and a statement take at most, in bytes.
pub const AREA_WIDTH: usize = START_WIDTH + 5 * SHORT_WIDTH + 5 * LONG_WIDTH + SUBS_WIDTH;

pub const STATEMENT_WIDTH: usize = START_WIDTH + LONG_WIDTH + AREA_WIDTH * MOST_AREAS;

fn put_years(out: &mut [u8], at: usize, area: Area) -> usize
    ensures { Put years_width out.old at (years_text area) out.new result }
{
    let next = statement_field::put_short(out, at, area.number, b',');
    let next = statement_field::put_short(out, next, area.opening, b',');
    let next = statement_field::put_short(out, next, area.open_year, b',');
    statement_field::put_short(out, next, area.latest, b',')
}

fn put_amounts(out: &mut [u8], at: usize, area: Area) -> usize
    ensures { Put amounts_width out.old at (amounts_text area) out.new result }
{
    let stock = area.stock;
    let withdrawn = u64::from(area.withdrawn);
    let next = statement_field::put_field(out, at, withdrawn, b',');
    let next = statement_field::put_short(out, next, area.returns, b',');
    let next = statement_field::put_field(out, next, stock.0, b',');
    let next = statement_field::put_field(out, next, area.received, b',');
    statement_field::put_field(out, next, area.surrendered, b',')
}

// Puts an area's line and those of its sub-areas.
pub fn put_area(out: &mut [u8], at: usize, area: Area) -> usize
    ensures { Put area_width out.old at (area_text area) out.new result }
{
    let next = statement_field::put_start(out, at, b'A');
    let next = put_years(out, next, area);
    let next = put_amounts(out, next, area);
    let mut next = statement_field::put_field(out, next, area.count as u64, b'\n');
    for sub in area.standing() {
        next = statement_sub::put_sub(out, next, *sub);
    }
    next
}

// Puts the holding's statement at a place; the answer is the place after it. The holding is handed on to no other function, and so copied once.
pub fn put_statement(out: &mut [u8], at: usize, holding: Holding) -> usize
    ensures wrote { Wrote out.old at (statement_of holding) out.new result }
    ensures holding_len_bound { length (statement_of holding) ≤ statement_width }
{
    let start = statement_field::put_start(out, at, b'H');
    let mut next = statement_field::put_field(out, start, holding.count as u64, b'\n');
    for area in holding.standing() {
        next = put_area(out, next, *area);
    }
    next
}

// Writes the holding's statement to the front of `out`: how many bytes it has, or why it is not written.
pub fn write(holding: Holding, out: &mut [u8]) -> Written
    ensures value { result ≡ written (writable (statement_of holding) (length out.old)) (statement_of holding) }
    ensures out_after { out.new ≡ buffer_after (writable (statement_of holding) (length out.old)) (statement_of holding) out.old }
{
    let mut unkept = [0u8; 1];
    let need = put_statement(&mut unkept, 0, holding);
    if out.len() < need {
        return Err(Refusal::OutputShort);
    }
    let count = put_statement(out, 0, holding);
    Ok(count)
}
