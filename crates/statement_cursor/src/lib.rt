// Reads fields at a place of lent bytes, each with the place after it. The place 0, where no field but a statement's first letter can stand,
// says that something was not read: what is read there is not read either, so that a caller need only look at the last place.
#![tactic(auto)]

ghost use Rattle.std.specs.Prelude.{◌≤◌, ◌≡◌};
ghost use Rattle.statement_cursor.specs.{Leads, Stops, number_at, type_at, start_at, line_at};

use forest::Forest;

#[derive(Clone, Copy)]
pub struct NumberField {
    pub value: u64,
    pub next: usize,
}

#[derive(Clone, Copy)]
pub struct TypeField {
    pub forest: Forest,
    pub next: usize,
}

// The digits that stand from a place on: their number, and the place of the byte that stopped them.
#[derive(Clone, Copy)]
struct Digits {
    value: u64,
    stop: usize,
}

// The largest number that has room for one digit more.
const LARGEST: u64 = 99999999999999;

// The digits of the field that stands at a place and is ended by the byte `end`, as far as they fit.
fn digits_at(s: &[u8], at: usize, end: u8) -> Digits
    ensures leads { Leads s.now at end result.value result.stop }
    ensures stops { Stops s.now end result.value result.stop }
{
    let mut value: u64 = 0;
    let mut i = at;
    while i < s.len() {
        let byte = s[i];
        if (byte == end) | (byte < b'0') | (b'9' < byte) | (LARGEST < value) {
            return Digits { value, stop: i };
        }
        value = value * 10 + (byte - b'0') as u64;
        i += 1;
    }
    Digits { value, stop: i }
}

// The number of at most `most` that stands at a place and is ended by the byte `end`. The tests are one, so that the compiler makes little of them.
pub fn number(s: &[u8], at: usize, end: u8, most: u64) -> NumberField
    ensures value { result ≡ number_at s.now at end most }
    ensures value_le_most { result.value ≤ most }
{
    let digits = digits_at(s, at, end);
    let value = digits.value;
    let stop = digits.stop;
    if s.len() <= stop {
        return NumberField { value: 0, next: 0 };
    }
    let width = stop - at;
    let headed = (0 < width) & ((width == 1) | (s[at] != b'0'));
    if (at != 0) & (s[stop] == end) & headed & (value <= most) {
        return NumberField {
            value,
            next: stop + 1,
        };
    }
    NumberField { value: 0, next: 0 }
}

// The forest type that stands at a place and is ended by the byte `end`.
pub fn forest_type(s: &[u8], at: usize, end: u8) -> TypeField
    ensures { result ≡ type_at s.now at end }
{
    if at == 0 {
        return TypeField {
            forest: Forest::Bare,
            next: 0,
        };
    }
    let stop = text::end_of(s, at, end);
    if s.len() <= stop {
        return TypeField {
            forest: Forest::Bare,
            next: 0,
        };
    }
    match forest::read(&s[at..stop]) {
        Some(f) => TypeField {
            forest: f,
            next: stop + 1,
        },
        None => TypeField {
            forest: Forest::Bare,
            next: 0,
        },
    }
}

// The place after a letter and a comma that stand at a place.
pub fn start(s: &[u8], at: usize, letter: u8) -> usize
    ensures { result ≡ start_at s.now at letter }
{
    if s.len() <= at {
        return 0;
    }
    if s[at] != letter {
        return 0;
    }
    let comma = at + 1;
    if s.len() <= comma {
        return 0;
    }
    if s[comma] != b',' {
        return 0;
    }
    comma + 1
}

// The same, where the place is not a statement's start.
pub fn line(s: &[u8], at: usize, letter: u8) -> usize
    ensures { result ≡ line_at s.now at letter }
{
    if at == 0 {
        return 0;
    }
    start(s, at, letter)
}
