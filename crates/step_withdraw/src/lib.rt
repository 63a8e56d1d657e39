// W withdraws an area: its whole balance is due.
#![tactic(auto)]

ghost use Rattle.std.specs.Prelude.{◌≡◌};
ghost use Rattle.refusals.specs.{smallest};
ghost use Rattle.step_withdraw.specs.{withdraw_cases, withdrawn};

use holding::Area;
use holding_look::Looked;
use refusals::{Refusal, Verdict};
use step_outcome::{Outcome, Report};

#[tactic(auto, unfolding(refusals::specs::Refusals::weigh_all, refusals::specs::Refusals::smallest, refusals::specs::Refusals::weighed, step_outcome::specs::Outcomes::area_cases, crate::specs::Withdrawing::withdraw_cases))]
fn verdict(number: u16, found: Option<usize>, area: Area) -> Verdict
    ensures { result ≡ smallest (withdraw_cases number found area) }
{
    refusals::refuse_if(!ranges::is_area(number), Refusal::AreaOrSubNumber)?;
    step_outcome::weigh_area(Ok(()), found, area)
}

pub fn withdraw(looked: Looked) -> Outcome
    ensures { result ≡ withdrawn looked }
{
    let found = looked.found;
    let area = looked.area;
    let v = verdict(looked.number, found, area);
    match v {
        Err(refusal) => step_outcome::turned(refusal),
        Ok(()) => {
            let due = area.received - area.surrendered;
            let mut after = area;
            after.withdrawn = true;
            after.surrendered = area.surrendered + due;
            Outcome {
                verdict: Ok(()),
                report: Report::Withdrawal {
                    area: area.number,
                    due,
                },
                place: found,
                count: looked.count,
                area: after,
            }
        }
    }
}
