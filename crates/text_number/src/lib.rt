// Whole numbers of any length, read from bytes.
#![tactic(auto)]

ghost use Rattle.std.specs.Prelude.{◌≡◌};
ghost use Rattle.text_number.specs.{append, more, number_in};

// What bytes stand for; a number of more than fifteen digits has no value here.
pub type Number = Result<u64, Unread>;

// Why there is none: more than fifteen digits, or no whole number.
#[derive(Clone, Copy, PartialEq, Eq)]
pub enum Unread {
    Large,
    Malformed,
}

// What is below has room for one digit more.
const ROOM: u64 = 100000000000000;

// A number with one byte behind its digits.
#[tactic(auto, unfolding(crate::specs::Numbers::append))]
pub fn append(number: Number, byte: u8) -> Number
    ensures { result ≡ append number byte }
{
    if byte < b'0' {
        return Err(Unread::Malformed);
    }
    if b'9' < byte {
        return Err(Unread::Malformed);
    }
    let value = number?;
    if value < ROOM {
        return Ok(value * 10 + (byte - b'0') as u64);
    }
    Err(Unread::Large)
}

// A number with more bytes behind its digits.
pub fn more(number: Number, bytes: &[u8]) -> Number
    ensures { result ≡ more number bytes.now }
{
    let mut n = number;
    for byte in bytes {
        n = append(n, *byte);
    }
    n
}

pub fn read(bytes: &[u8]) -> Number
    ensures { result ≡ number_in bytes.now }
{
    if bytes.len() == 0 {
        return Err(Unread::Malformed);
    }
    if bytes.len() == 1 {
        return more(Ok(0), bytes);
    }
    if bytes[0] == b'0' {
        return Err(Unread::Malformed);
    }
    more(Ok(0), bytes)
}
