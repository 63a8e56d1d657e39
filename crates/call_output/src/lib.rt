// What a call writes: a longer table, or a statement with one area changed and the report behind it.
#![tactic(auto)]

ghost use Rattle.std.specs.Prelude.{◌≡◌, ◌+◌, ◌*◌, ◌≤◌, leb, length};
ghost use Rattle.std.proofs.lemmas.List.Edits.{sets};
ghost use Rattle.refusals.specs.{written, buffer_after};
ghost use Rattle.statement_field.specs.{Put};
ghost use Rattle.statement_write.specs.{writable};
ghost use Rattle.call_output.specs.{table_bytes, changed_bytes, changed_width};

use holding::Area;
use refusals::{Refusal, Written};
use statement_field::{LONG_WIDTH, START_WIDTH};
use step_outcome::Report;

// Puts a table's numbers at the front of `out`, two bytes a number and the low byte first.
fn put_table(numbers: &[u16], out: &mut [u8])
    requires { 2 * length numbers.now ≤ length out.old }
    ensures { out.new ≡ sets out.old 0 (table_bytes numbers.now) }
{
    for i in 0..numbers.len() {
        let number = numbers[i];
        out[2 * i] = (number % 256) as u8;
        out[2 * i + 1] = (number / 256) as u8;
    }
}

// Writes a table to the front of `out`: how many bytes it has, or why it is not written.
pub fn write_table(numbers: &[u16], out: &mut [u8]) -> Written
    ensures value { result ≡ written (writable (table_bytes numbers.now) (length out.old)) (table_bytes numbers.now) }
    ensures out_after { out.new ≡ buffer_after (writable (table_bytes numbers.now) (length out.old)) (table_bytes numbers.now) out.old }
{
    let count = numbers.len();
    if out.len() / 2 < count {
        return Err(Refusal::OutputShort);
    }
    put_table(numbers, out);
    Ok(2 * count)
}

// Puts a statement with one area changed, and a report behind it: the first line, bytes as they came, the area, bytes as they came. The answer is
// the place after them.
fn put_changed(
    out: &mut [u8],
    count: usize,
    before: &[u8],
    area: Area,
    behind: &[u8],
    report: Report,
) -> usize
    ensures { Put (changed_width + length before.now + length behind.now) out.old 0 (changed_bytes count before.now area behind.now report) out.new result }
{
    let next = statement_field::put_start(out, 0, b'H');
    let next = statement_field::put_field(out, next, count as u64, b'\n');
    let next = text::put_bytes(out, next, before);
    let next = statement_write::put_area(out, next, area);
    let next = text::put_bytes(out, next, behind);
    book_print::put_report(out, next, report)
}

// What is written of any statement besides the bytes as they came takes at most, in bytes.
const CHANGED_WIDTH: usize = START_WIDTH
    + LONG_WIDTH
    + statement_write::AREA_WIDTH
    + book_print::REPORT_WIDTH;

// Whether there is room for three parts.
fn has_room(room: usize, written: usize, before: usize, behind: usize) -> bool
    ensures { result ≡ leb (written + before + behind) room }
{
    if room < written {
        return false;
    }
    let left = room - written;
    if left < before {
        return false;
    }
    behind <= left - before
}

// Writes a statement with one area changed, and a report behind it, to the front of `out`: how many bytes they have, or why they are not written.
// Where there is room for any area they are not measured, and the bytes that came never are.
pub fn write_changed(
    count: usize,
    before: &[u8],
    area: Area,
    behind: &[u8],
    report: Report,
    out: &mut [u8],
) -> Written
    ensures value { result ≡ written (writable (changed_bytes count before.now area behind.now report) (length out.old)) (changed_bytes count before.now area behind.now report) }
    ensures out_after { out.new ≡ buffer_after (writable (changed_bytes count before.now area behind.now report) (length out.old)) (changed_bytes count before.now area behind.now report) out.old }
{
    if has_room(out.len(), CHANGED_WIDTH, before.len(), behind.len()) {
        let length = put_changed(out, count, before, area, behind, report);
        return Ok(length);
    }
    let mut unkept = [0u8; 1];
    let written = put_changed(
        &mut unkept,
        count,
        &before[0..0],
        area,
        &behind[0..0],
        report,
    );
    if has_room(out.len(), written, before.len(), behind.len()) {
        let length = put_changed(out, count, before, area, behind, report);
        return Ok(length);
    }
    Err(Refusal::OutputShort)
}
