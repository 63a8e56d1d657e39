// The fields of a statement, written into a lent buffer at any place.
#![tactic(auto)]

ghost use Rattle.statement_format.specs.{start_text, number_text, start_width, long_width, short_width};
ghost use Rattle.statement_field.specs.{Put};

// What a field takes at most, in bytes: a letter and a comma, and a number of 64 or 16 bits and its end.
pub const START_WIDTH: usize = 2;

pub const LONG_WIDTH: usize = 21;

pub const SHORT_WIDTH: usize = 6;

// Puts the letter that starts a line and a comma; the answer, here and below, is the place after what was put.
pub fn put_start(out: &mut [u8], at: usize, letter: u8) -> usize
    ensures { Put start_width out.old at (start_text letter) out.new result }
{
    let next = text::put_byte(out, at, letter);
    text::put_byte(out, next, b',')
}

// Puts a number and the byte that ends its field. Most numbers of a statement have one digit, which is put without a call.
pub fn put_field(out: &mut [u8], at: usize, number: u64, end: u8) -> usize
    ensures { Put long_width out.old at (number_text number end) out.new result }
{
    if number < 10 {
        let next = text::put_byte(out, at, b'0' + number as u8);
        return text::put_byte(out, next, end);
    }
    let next = text::put_number(out, at, number);
    text::put_byte(out, next, end)
}

// Puts a number of at most five digits and the byte that ends its field.
pub fn put_short(out: &mut [u8], at: usize, number: u16, end: u8) -> usize
    ensures { Put short_width out.old at (number_text number end) out.new result }
{
    put_field(out, at, number as u64, end)
}
