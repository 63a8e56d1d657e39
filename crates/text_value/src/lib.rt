// What a number that was read says of ranges: whether it is in one, and its value in so many bits.
#![tactic(auto)]

ghost use Rattle.std.specs.Prelude.{◌≡◌};
ghost use Rattle.text_value.specs.{malformed, outside, value_of, fitted};

use text_number::{Number, Unread};

pub fn is_malformed(number: Number) -> bool
    ensures { result ≡ malformed number }
{
    number == Err(Unread::Malformed)
}

// It is not one of low to high.
pub fn is_outside(number: Number, low: u64, high: u64) -> bool
    ensures { result ≡ outside low high number }
{
    match number {
        Ok(v) => (v < low) | (high < v),
        Err(_) => true,
    }
}

// The value in fewer bits, 0 where there is none or it does not fit. Two functions: one for every integer type would promise the range
// of the type and not `fitted`, by which the callers' definitions say it.
pub fn value_u32(number: Number) -> u32
    ensures { result ≡ fitted 4294967295 number }
{
    u32::try_from(number.unwrap_or(0)).unwrap_or(0)
}

pub fn value_u16(number: Number) -> u16
    ensures { result ≡ fitted 65535 number }
{
    u16::try_from(number.unwrap_or(0)).unwrap_or(0)
}
