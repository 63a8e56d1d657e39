// C clears a sub-area: its trees become its residue.
#![tactic(auto)]

ghost use Rattle.std.specs.Prelude.{◌≡◌};
ghost use Rattle.refusals.specs.{smallest};
ghost use Rattle.holding.specs.{find_sub};
ghost use Rattle.holding_look.specs.{sub_at};
ghost use Rattle.step_clear.specs.{clear_cases, cleared_sub, cleared};

use forest::Forest;
use holding::{Area, Residue, Sub};
use holding_look::{Looked, Stand};
use refusals::{Refusal, Verdict};
use step_outcome::{Outcome, Report};

// By the sub-area as it stands.
#[tactic(auto, unfolding(refusals::specs::Refusals::weigh_all, refusals::specs::Refusals::smallest, refusals::specs::Refusals::weighed, step_outcome::specs::Outcomes::area_cases, crate::specs::Clearing::clear_cases))]
fn verdict(
    number: u16,
    sub: u16,
    year: u16,
    found: Option<usize>,
    area: Area,
    stand: Stand,
) -> Verdict
    requires { (stand.found ≡ find_sub area sub) × (stand.sub ≡ sub_at area (find_sub area sub)) }
    ensures { result ≡ smallest (clear_cases number sub year found area) }
{
    let forest = stand.sub.forest;
    refusals::refuse_if(
        !(ranges::is_area(number) & ranges::is_sub(sub)),
        Refusal::AreaOrSubNumber,
    )?;
    refusals::refuse_if(!ranges::is_year(year), Refusal::YearRange)?;
    step_outcome::weigh_area(Ok(()), found, area)?;
    refusals::refuse_if(stand.found.is_none(), Refusal::SubUnknown)?;
    refusals::refuse_if(ranges::is_bare(forest), Refusal::ClearingBareLand)?;
    refusals::refuse_if(
        (year < area.open_year) | (year < area.latest),
        Refusal::YearBefore,
    )
}

fn cleared_sub(sub: Sub, year: u16) -> Sub
    ensures { result ≡ cleared_sub sub year }
{
    let tenths = sub.tenths;
    let forest = sub.forest;
    let age = ranges::years_from(sub.planted, year);
    Sub {
        number: sub.number,
        tenths,
        forest: Forest::Bare,
        planted: 0,
        residue: Residue { forest, age, year },
    }
}

pub fn clear(looked: Looked, sub: u16, year: u16) -> Outcome
    ensures { result ≡ cleared looked sub year }
{
    let found = looked.found;
    let area = looked.area;
    let stand = holding_look::find_stand(area, sub);
    let at = stand.found;
    let before = stand.sub;
    let v = verdict(looked.number, sub, year, found, area, stand);
    match v {
        Err(refusal) => step_outcome::turned(refusal),
        Ok(()) => Outcome {
            verdict: Ok(()),
            report: Report::Nothing,
            place: found,
            count: looked.count,
            area: holding_look::with_sub(area, at, cleared_sub(before, year), year),
        },
    }
}
