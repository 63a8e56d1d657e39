// A call's act on an area: a step of the holding that the statement carries, under a table's numbers, and the statement after it.
#![tactic(auto)]

ghost use Rattle.std.specs.Prelude.{◌≡◌};
ghost use Rattle.schedules.specs.{schedule6};
ghost use Rattle.holding_look.specs.{Looked};
ghost use Rattle.step.specs.{acted};
ghost use Rattle.call_output.specs.{Gives};
ghost use Rattle.call_step.specs.{step_verdict, step_bytes};

use line_entry::AreaAct;
use refusals::Written;

// Takes an act under a default table that gives what Schedule 6 gives.
fn take_under<'a>(
    statement: &[u8],
    own: &'a [u16],
    default: &'a [u16],
    on: AreaAct,
    out: &mut [u8],
) -> Written
    requires { (looked : Looked) → acted own.now default.now looked on.act ≡ acted own.now schedule6 looked on.act }
    ensures { Gives (step_verdict own.now statement.now on) (step_bytes own.now statement.now on) out.old result out.new }
{
    let passed = statement_pass::pass(statement, on.area);
    let read_verdict = passed.verdict;
    let looked = passed.looked;
    let act = on.act;
    let outcome = step::apply_to(own, default, looked, act);
    let step_verdict = outcome.verdict;
    let stated_verdict = refusals::least(read_verdict, step_verdict);
    let table_verdict = table::judge(own);
    refusals::least(table_verdict, stated_verdict)?;
    call_output::write_changed(
        outcome.count,
        &statement[passed.body..passed.from],
        outcome.area,
        &statement[passed.to..],
        outcome.report,
        out,
    )
}

// Takes an act by a statement and a participant's table, which is judged, and writes to the front of `out` the statement after it, with its report: how
// many bytes, or why nothing is written. Schedule 6 is laid out only for an act that may look a rate up.
pub fn take_step(statement: &[u8], own: &[u16], on: AreaAct, out: &mut [u8]) -> Written
    ensures { Gives (step_verdict own.now statement.now on) (step_bytes own.now statement.now on) out.old result out.new }
{
    let act = on.act;
    if step::looks_up(act) {
        let default = schedules::schedule_six();
        return take_under(statement, own, &default, on, out);
    }
    take_under(statement, own, &own[0..0], on, out)
}
