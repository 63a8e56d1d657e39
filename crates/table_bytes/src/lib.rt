// A table's bytes, read as its numbers.
#![tactic(auto)]

ghost use Rattle.std.specs.Prelude.{◌≡◌, ◌/◌, ◌%◌, ◌≤◌, length};
ghost use Rattle.std.proofs.lemmas.List.Edits.{sets};
ghost use Rattle.refusals.specs.{written, buffer_after};
ghost use Rattle.table_bytes.specs.{numbers_of, decodable};

use refusals::{Refusal, Written, refuse_if};
use table::LONGEST_TABLE;

// The numbers of the bytes, two bytes a number and the low byte first, to the front of `out`.
fn put_numbers(bytes: &[u8], out: &mut [u16])
    requires { (length bytes.now % 2 ≡ 0) × (length bytes.now / 2 ≤ length out.old) }
    ensures { out.new ≡ sets out.old 0 (numbers_of bytes.now) }
{
    for i in 0..bytes.len() / 2 {
        let low = bytes[2 * i] as u16;
        let high = bytes[2 * i + 1] as u16;
        out[i] = low + 256 * high;
    }
}

// A table's bytes to its numbers, at the front of `out`.
#[tactic(auto, unfolding(crate::specs::Bytes::decodable, refusals::specs::Refusals::smallest, refusals::specs::Refusals::weigh_all, refusals::specs::Refusals::weighed, refusals::specs::Answers::written, refusals::specs::Answers::buffer_after))]
pub fn decode(bytes: &[u8], out: &mut [u16]) -> Written
    ensures value { result ≡ written (decodable bytes.now (length out.old)) (numbers_of bytes.now) }
    ensures out_after { out.new ≡ buffer_after (decodable bytes.now (length out.old)) (numbers_of bytes.now) out.old }
{
    let n = bytes.len() / 2;
    refuse_if(bytes.len() % 2 != 0, Refusal::TableColumn)?;
    refuse_if(LONGEST_TABLE < n, Refusal::TableColumn)?;
    refuse_if(out.len() < n, Refusal::OutputShort)?;
    put_numbers(bytes, out);
    Ok(n)
}
