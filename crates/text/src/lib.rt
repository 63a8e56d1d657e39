// A byte looked for, and bytes written into a lent buffer.
// A byte past the buffer's end is not stored and the place moves on all the same, so that writing measures.
#![tactic(auto)]

ghost use Rattle.std.specs.Prelude.{◌≡◌, ◌∷◌, [], ◌+◌, ◌/◌, ◌%◌, ◌≤◌, ◌<◌, min, length, drop};
ghost use Rattle.std.proofs.lemmas.List.Edits.{sets};
ghost use Rattle.text.specs.{width_to, holds, digits, greatest, Wrote};

// The place of the first byte `byte` from a start on, or the end of the bytes; a start past their end is the answer itself.
pub fn end_of(bytes: &[u8], start: usize, byte: u8) -> usize
    ensures { result ≡ start + width_to byte (drop start bytes.now) }
{
    let Some(rest) = bytes.get(start..) else {
        return start;
    };
    start + rest.iter().position(|b| *b == byte).unwrap_or(rest.len())
}

pub fn holds(bytes: &[u8], byte: u8) -> bool
    ensures { result ≡ holds byte bytes.now }
{
    bytes.contains(&byte)
}

// Puts a byte at a place; the answer, here and below, is the place after what was put.
pub fn put_byte(out: &mut [u8], at: usize, byte: u8) -> usize
    ensures { Wrote out.old at (byte ∷ []) out.new result }
{
    if at < out.len() {
        out[at] = byte;
    }
    at.saturating_add(1)
}

// Puts bytes, as many as have room.
pub fn put_bytes(out: &mut [u8], at: usize, bytes: &[u8]) -> usize
    ensures { Wrote out.old at bytes.now out.new result }
{
    let many = bytes.len().min(out.len().saturating_sub(at));
    // One by one: for the library's copy the archive for C wants memmove from outside.
    for i in 0..many {
        out[at + i] = bytes[i];
    }
    at.saturating_add(bytes.len())
}

// Puts the two digits of a number below a hundred, which may have a zero in front.
fn put_two(out: &mut [u8], at: usize, number: u64) -> usize
    requires { number < 100 }
    ensures { Wrote out.old at ((48 + number / 10) ∷ (48 + number % 10) ∷ []) out.new result }
{
    let next = put_byte(out, at, b'0' + (number / 10) as u8);
    put_byte(out, next, b'0' + (number % 10) as u8)
}

// Puts a number's digits: up to four, or those of its ten-thousandth and four more.
pub fn put_number(out: &mut [u8], at: usize, number: u64) -> usize
    ensures { Wrote out.old at (digits number) out.new result }
{
    if number < 10 {
        return put_byte(out, at, b'0' + number as u8);
    }
    if number < 100 {
        return put_two(out, at, number);
    }
    if number < 1000 {
        let next = put_byte(out, at, b'0' + (number / 100) as u8);
        return put_two(out, next, number % 100);
    }
    if number < 10000 {
        let next = put_two(out, at, number / 100);
        return put_two(out, next, number % 100);
    }
    let next = put_number(out, at, number / 10000);
    let last = number % 10000;
    let next = put_two(out, next, last / 100);
    put_two(out, next, last % 100)
}
