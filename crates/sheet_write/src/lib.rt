// Rows of a sheet put into a lent buffer, each field quoted and each row ended by CR LF; the answer is the place after what was put.
#![tactic(auto)]

ghost use Rattle.std.specs.Prelude.{◌∷◌, [], ◌++◌};
ghost use Rattle.text.specs.{comma, Wrote};
ghost use Rattle.text_field.specs.{part};
ghost use Rattle.sheet_judge.specs.{heading_row};
ghost use Rattle.sheet_write.specs.{doubled, quoted, row_of, row_text};

use text_field::Places;

const QUOTE: u8 = b'"';

// Puts a byte of a field, a quote twice.
fn put_doubled(out: &mut [u8], at: usize, byte: u8) -> usize
    ensures { Wrote out.old at (doubled (byte ∷ [])) out.new result }
{
    if byte == QUOTE {
        let next = text::put_byte(out, at, byte);
        return text::put_byte(out, next, byte);
    }
    text::put_byte(out, at, byte)
}

// Puts a field between quotes.
pub fn put_quoted(out: &mut [u8], at: usize, field: &[u8]) -> usize
    ensures { Wrote out.old at (quoted field.now) out.new result }
{
    let mut next = text::put_byte(out, at, QUOTE);
    for byte in field {
        next = put_doubled(out, next, *byte);
    }
    text::put_byte(out, next, QUOTE)
}

// Puts a field of a line, and the comma behind it.
fn put_field(out: &mut [u8], at: usize, line: &[u8], places: Places, k: usize) -> usize
    ensures { Wrote out.old at (quoted (part line.now places k) ++ (comma ∷ [])) out.new result }
{
    let next = put_quoted(out, at, text_field::field(line, places, k));
    text::put_byte(out, next, b',')
}

// Puts the row of a book's line: the five fields behind its letter.
pub fn put_row(out: &mut [u8], at: usize, line: &[u8]) -> usize
    ensures { Wrote out.old at (row_text (row_of line.now)) out.new result }
{
    let places = text_field::scan(line);
    let area = put_field(out, at, line, places, 1);
    let sub = put_field(out, area, line, places, 2);
    let hectares = put_field(out, sub, line, places, 3);
    let forest = put_field(out, hectares, line, places, 4);
    let planted = put_quoted(out, forest, text_field::field(line, places, 5));
    text::put_bytes(out, planted, b"\r\n")
}

// Puts the heading.
pub fn put_heading(out: &mut [u8], at: usize) -> usize
    ensures { Wrote out.old at (row_text heading_row) out.new result }
{
    text::put_bytes(
        out,
        at,
        b"\"area\",\"sub\",\"hectares\",\"type\",\"planted\"\r\n",
    )
}
