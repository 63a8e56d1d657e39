// The foot of a statement, for a recorder's own program.
#![tactic(auto)]

ghost use Rattle.std.specs.Prelude.{◌≡◌, length};
ghost use Rattle.refusals.specs.{written, buffer_after};
ghost use Rattle.statement.specs.{read_of};
ghost use Rattle.statement_write.specs.{writable};
ghost use Rattle.book_foot.specs.{units_text};
ghost use Rattle.call_output.specs.{Gives};
ghost use Rattle.call_foot.specs.{foot_bytes};

use holding_look::Units;
use refusals::{Refusal, Written};

// Writes F and units to the front of `out`: how many bytes, or why they are not written.
fn write_foot(units: Units, out: &mut [u8]) -> Written
    ensures value { result ≡ written (writable (units_text units) (length out.old)) (units_text units) }
    ensures out_after { out.new ≡ buffer_after (writable (units_text units) (length out.old)) (units_text units) out.old }
{
    let received = units.received;
    let surrendered = units.surrendered;
    let balance = units.balance;
    let mut unkept = [0u8; 1];
    let need = book_print::put_foot(&mut unkept, 0, received, surrendered, balance);
    if out.len() < need {
        return Err(Refusal::OutputShort);
    }
    let count = book_print::put_foot(out, 0, received, surrendered, balance);
    Ok(count)
}

// Writes the F line of a statement to the front of `out`: how many bytes, or why nothing is written. The units come of one pass over the statement.
pub fn foot(statement: &[u8], out: &mut [u8]) -> Written
    ensures { Gives (read_of statement.now).verdict (foot_bytes statement.now) out.old result out.new }
{
    let passed = statement_pass::pass(statement, 0);
    passed.verdict?;
    write_foot(passed.units, out)
}
