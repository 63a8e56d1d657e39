// Numbers with a point, read from bytes: hectares and table cells.
#![tactic(auto)]

ghost use Rattle.std.specs.Prelude.{◌≡◌};
ghost use Rattle.text_number.specs.{more};
ghost use Rattle.text_decimal.specs.{zeros, decimal_in, hectares_in, cell_in};

use text_number::{Number, Unread};

// A number with zeros behind its digits.
fn zeros(number: Number, count: usize) -> Number
    ensures { result ≡ more number (zeros count) }
{
    let mut n = number;
    for _ in 0..count {
        n = text_number::append(n, b'0');
    }
    n
}

// A number with at most `places` decimals, in the unit of the last of them.
fn decimal(bytes: &[u8], places: usize) -> Number
    ensures { result ≡ decimal_in places bytes.now }
{
    let end = text::end_of(bytes, 0, b'.');
    let whole = text_number::read(&bytes[..end]);
    if bytes.len() <= end {
        return zeros(whole, places);
    }
    let decimals = &bytes[end + 1..];
    let count = decimals.len();
    if count == 0 {
        return Err(Unread::Malformed);
    }
    if places < count {
        return Err(Unread::Malformed);
    }
    let digits = text_number::more(whole, decimals);
    zeros(digits, places - count)
}

// Hectares, in ten-thousandths.
pub fn hectares(bytes: &[u8]) -> Number
    ensures { result ≡ hectares_in bytes.now }
{
    if 6 < text::end_of(bytes, 0, b'.') {
        return Err(Unread::Malformed);
    }
    decimal(bytes, 4)
}

// A table's cell, in tenths.
pub fn cell(bytes: &[u8]) -> Number
    ensures { result ≡ cell_in bytes.now }
{
    decimal(bytes, 1)
}
