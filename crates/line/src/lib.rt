// A line, with its end or without, to an entry or a refusal.
#![tactic(auto)]

ghost use Rattle.std.specs.Prelude.{◌≡◌, length};
ghost use Rattle.refusals.specs.{buffer_after};
ghost use Rattle.line_entry.specs.{parsed_by};
ghost use Rattle.line_cells.specs.{tenths_all};
ghost use Rattle.line_column.specs.{cells_of, readable, column_read};
ghost use Rattle.line.specs.{body_of, fields_of, letter_of, is_column_line, line_rule, entry_of, as_column};

use line_column::ReadColumn;
use line_entry::Parsed;
use refusals::{Refusal, Verdict};

// The longest line, besides its end.
pub const LONGEST: usize = 1024;

// The line besides its end.
fn body(line: &[u8]) -> &[u8]
    ensures { result.now ≡ body_of line.now }
{
    let count = line.len();
    if count == 0 {
        return &line[0..count];
    }
    if line[count - 1] == b'\n' {
        return &line[0..count - 1];
    }
    &line[0..count]
}

fn letter(body: &[u8]) -> u8
    ensures { result ≡ letter_of body.now }
{
    if body.len() == 0 {
        return 0;
    }
    if body.len() == 1 {
        return body[0];
    }
    if body[1] == b',' {
        return body[0];
    }
    0
}

// Whether the line's letter is T.
pub fn is_column(line: &[u8]) -> bool
    ensures { result ≡ is_column_line line.now }
{
    letter(body(line)) == b'T'
}

fn by_letter(body: &[u8]) -> Parsed
    ensures { result ≡ parsed_by (line_rule body.now) }
{
    match letter(body) {
        b'T' => line_column::column_entry(body),
        b'A' => line_area::open_entry(body),
        b'S' => line_sub::add_entry(body),
        b'C' => line_stand::clear_entry(body),
        b'P' => line_stand::plant_entry(body),
        b'R' => line_area::file_entry(body),
        b'W' => line_area::withdraw_entry(body),
        _ => Err(Refusal::Form),
    }
}

pub fn parse(line: &[u8]) -> Parsed
    ensures { result ≡ entry_of line.now }
{
    let inner = body(line);
    if LONGEST < inner.len() {
        return Err(Refusal::Form);
    }
    if text::holds(inner, b'\n') {
        return Err(Refusal::Form);
    }
    by_letter(inner)
}

// Reads the column of a T line, and its cells into lent numbers: all of them, or none where the line is refused.
pub fn read_column(line: &[u8], cells: &mut [u16]) -> ReadColumn
    ensures value { result ≡ column_read (readable (as_column line.now) (fields_of line.now) (length cells.old)) (fields_of line.now) }
    ensures cells_after { cells.new ≡ buffer_after (readable (as_column line.now) (fields_of line.now) (length cells.old)) (tenths_all (cells_of (fields_of line.now))) cells.old }
{
    let inner = body(line);
    let other = letter(inner) != b'T';
    let broken = text::holds(inner, b'\n');
    if other | (LONGEST < inner.len()) | broken {
        return ReadColumn {
            verdict: Err(Refusal::Form),
            column: 0,
            count: 0,
        };
    }
    line_column::read_column(inner, cells)
}
