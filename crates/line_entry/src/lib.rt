// The entries of a book, and the judging that their letters share.
#![tactic(auto)]

ghost use Rattle.std.specs.Prelude.{◌≡◌, eqb, not, ◌||◌, Ok};
ghost use Rattle.text_number.specs.{number_in};
ghost use Rattle.text_value.specs.{malformed};
ghost use Rattle.text_field.specs.{part};
ghost use Rattle.refusals.specs.{weighed};
ghost use Rattle.line_entry.specs.{letter_in, bad_area, bad_sub, bad_year, refused_by};

use forest::Forest;
use refusals::{Refusal, Verdict, Written, weigh};
use text_field::Places;
use text_number::Number;
use units::Tenths;

// What an entry does to the accounting area that it names: A, S, C, P, R and W.
#[derive(Clone, Copy)]
pub enum Act {
    Open {
        opening: u16,
    },
    Add {
        sub: u16,
        land: Tenths,
        forest: Forest,
        planted: u16,
    },
    Clear {
        sub: u16,
        year: u16,
    },
    Plant {
        sub: u16,
        forest: Forest,
        year: u16,
    },
    File {
        last: u16,
    },
    Withdraw,
}

#[derive(Clone, Copy)]
pub struct AreaAct {
    pub area: u16,
    pub act: Act,
}

// T names a column of the participant's table, 0 to 9; its cells stay in the line. Every other entry is an act on an area.
#[derive(Clone, Copy)]
pub enum Entry {
    Column { column: usize },
    On(AreaAct),
}

// What a line says.
pub type Parsed = Result<Entry, Refusal>;

// The answer to a line that is no entry: its refusal.
pub fn refused_by(parsed: Parsed) -> Written
    ensures { result ≡ refused_by parsed }
{
    parsed?;
    Ok(0)
}

// The letter that a field is, or 0.
pub fn letter_in(field: &[u8]) -> u8
    ensures { result ≡ letter_in field.now }
{
    if field.len() != 1 {
        return 0;
    }
    field[0]
}

// 1: another letter in front, or another number of fields.
pub fn weigh_letter(line: &[u8], places: Places, letter: u8, fields: usize) -> Verdict
    ensures { result ≡ weighed (Ok tt) (not (eqb (letter_in (part line.now places 0)) letter) || not (eqb places.count fields)) Refusal.Form }
{
    let first = letter_in(text_field::field(line, places, 0));
    let count = places.count;
    weigh(Ok(()), (first != letter) | (count != fields), Refusal::Form)
}

// The number in the field at a place.
pub fn number_at(line: &[u8], places: Places, k: usize) -> Number
    ensures { result ≡ number_in (part line.now places k) }
{
    text_number::read(text_field::field(line, places, k))
}

pub fn weigh_form(so_far: Verdict, number: Number) -> Verdict
    ensures { result ≡ weighed so_far (malformed number) Refusal.Form }
{
    weigh(so_far, text_value::is_malformed(number), Refusal::Form)
}

pub fn weigh_area(so_far: Verdict, area: Number) -> Verdict
    ensures { result ≡ weighed so_far (bad_area area) Refusal.AreaOrSubNumber }
{
    weigh(
        so_far,
        text_value::is_outside(area, 1, ranges::LAST_AREA as u64),
        Refusal::AreaOrSubNumber,
    )
}

pub fn weigh_sub(so_far: Verdict, sub: Number) -> Verdict
    ensures { result ≡ weighed so_far (bad_sub sub) Refusal.AreaOrSubNumber }
{
    weigh(
        so_far,
        text_value::is_outside(sub, 1, ranges::LAST_SUB as u64),
        Refusal::AreaOrSubNumber,
    )
}

pub fn weigh_year(so_far: Verdict, year: Number) -> Verdict
    ensures { result ≡ weighed so_far (bad_year year) Refusal.YearRange }
{
    weigh(
        so_far,
        text_value::is_outside(year, ranges::FIRST_YEAR as u64, ranges::LAST_YEAR as u64),
        Refusal::YearRange,
    )
}
