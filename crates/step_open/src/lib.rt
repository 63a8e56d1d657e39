// A opens an accounting area.
#![tactic(auto)]

ghost use Rattle.std.specs.Prelude.{◌≡◌};
ghost use Rattle.refusals.specs.{smallest};
ghost use Rattle.step_open.specs.{open_cases, opened};

use holding::MOST_AREAS;
use holding_look::Looked;
use refusals::{Refusal, Verdict};
use step_outcome::{Outcome, Report};

#[tactic(auto, unfolding(refusals::specs::Refusals::weigh_all, refusals::specs::Refusals::smallest, refusals::specs::Refusals::weighed, crate::specs::Opening::open_cases))]
fn verdict(looked: Looked, opening: u16) -> Verdict
    ensures { result ≡ smallest (open_cases looked opening) }
{
    let found = looked.found;
    let area = looked.area;
    refusals::refuse_if(!ranges::is_area(looked.number), Refusal::AreaOrSubNumber)?;
    refusals::refuse_if(!ranges::is_year(opening), Refusal::YearRange)?;
    step_outcome::weigh_carried(Ok(()), found, area)?;
    refusals::refuse_if(found.is_some(), Refusal::AreaUsed)?;
    refusals::refuse_if(MOST_AREAS <= looked.count, Refusal::AreasFull)
}

// Opens the area of the number that was looked for.
pub fn open(looked: Looked, opening: u16) -> Outcome
    ensures { result ≡ opened looked opening }
{
    let v = verdict(looked, opening);
    match v {
        Err(refusal) => step_outcome::turned(refusal),
        Ok(()) => {
            let count = looked.count;
            let mut area = holding::empty_area();
            area.number = looked.number;
            area.opening = opening;
            area.open_year = opening;
            Outcome {
                verdict: Ok(()),
                report: Report::Nothing,
                place: Some(count),
                count: count + 1,
                area,
            }
        }
    }
}
