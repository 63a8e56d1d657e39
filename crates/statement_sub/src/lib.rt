// The line of a sub-area, written into a lent buffer at any place.
#![tactic(auto)]

ghost use Rattle.statement_format.specs.{type_text, residue_text, sub_text, type_width, residue_width, sub_width};
ghost use Rattle.statement_field.specs.{Put};
ghost use Rattle.text.specs.{line_end};

use forest::Forest;
use holding::{MOST_SUBS, Residue, Sub};
use statement_field::{LONG_WIDTH, SHORT_WIDTH, START_WIDTH};

// What a type with its end, a residue, a sub-area's line and those of an area take at most, in bytes.
const TYPE_WIDTH: usize = 3;

const RESIDUE_WIDTH: usize = TYPE_WIDTH + 2 * SHORT_WIDTH;

const SUB_WIDTH: usize = START_WIDTH
    + SHORT_WIDTH
    + LONG_WIDTH
    + TYPE_WIDTH
    + SHORT_WIDTH
    + RESIDUE_WIDTH;

pub const SUBS_WIDTH: usize = SUB_WIDTH * MOST_SUBS;

fn put_type(out: &mut [u8], at: usize, forest: Forest, end: u8) -> usize
    ensures { Put type_width out.old at (type_text forest end) out.new result }
{
    let next = text::put_bytes(out, at, forest::write(forest));
    text::put_byte(out, next, end)
}

fn put_residue(out: &mut [u8], at: usize, residue: Residue) -> usize
    ensures { Put residue_width out.old at (residue_text residue line_end) out.new result }
{
    let forest = residue.forest;
    let next = put_type(out, at, forest, b',');
    let next = statement_field::put_short(out, next, residue.age, b',');
    statement_field::put_short(out, next, residue.year, b'\n')
}

// Puts a sub-area's line; the answer is the place after what was put.
pub fn put_sub(out: &mut [u8], at: usize, sub: Sub) -> usize
    ensures { Put sub_width out.old at (sub_text sub) out.new result }
{
    let tenths = sub.tenths;
    let forest = sub.forest;
    let residue = sub.residue;
    let next = statement_field::put_start(out, at, b'S');
    let next = statement_field::put_short(out, next, sub.number, b',');
    let next = statement_field::put_field(out, next, tenths.0 as u64, b',');
    let next = put_type(out, next, forest, b',');
    let next = statement_field::put_short(out, next, sub.planted, b',');
    put_residue(out, next, residue)
}
