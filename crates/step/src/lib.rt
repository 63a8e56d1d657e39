// A step of a holding: an act on the area that it names.
#![tactic(auto)]

ghost use Rattle.std.specs.Prelude.{◌≡◌};
ghost use Rattle.step.specs.{looks_up, acted, stepped};

use holding::Holding;
use holding_look::Looked;
use line_entry::{Act, AreaAct};
use refusals::Verdict;
use step_outcome::Outcome;

// Whether an act may look a rate up: any other is the same under any default table.
pub fn looks_up(act: Act) -> bool
    ensures { result ≡ looks_up act }
{
    matches!(act, Act::Add { .. } | Act::File { .. })
}

// An act on the area that was looked up. Both tables are lent, as whoever calls has judged them: the participant's, and the cells of Schedule 6.
pub fn apply_to<'a>(own: &'a [u16], default: &'a [u16], looked: Looked, act: Act) -> Outcome
    ensures { result ≡ acted own.now default.now looked act }
{
    match act {
        Act::Open { opening } => step_open::open(looked, opening),
        Act::Add {
            sub,
            land,
            forest,
            planted,
        } => step_add::add(own, default, looked, sub, land, forest, planted),
        Act::Clear { sub, year } => step_clear::clear(looked, sub, year),
        Act::Plant { sub, forest, year } => step_plant::plant(looked, sub, forest, year),
        Act::File { last } => step_file::file(own, default, looked, last),
        Act::Withdraw => step_withdraw::withdraw(looked),
    }
}

// A step of a holding under a participant's table, which is judged; Schedule 6 serves where it has no column.
pub fn enter(own: &[u16], holding: Holding, on: AreaAct) -> Outcome
    ensures { result ≡ stepped own.now holding on }
{
    let default = schedules::schedule_six();
    let looked = holding_look::look_up(holding, on.area);
    let act = on.act;
    let outcome = apply_to(own, &default, looked, act);
    let table_verdict = table::judge(own);
    let act_verdict = outcome.verdict;
    let v = refusals::least(table_verdict, act_verdict);
    match v {
        Err(refusal) => step_outcome::turned(refusal),
        Ok(()) => outcome,
    }
}
