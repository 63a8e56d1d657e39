// P plants a sub-area that has no trees.
#![tactic(auto)]

ghost use Rattle.std.specs.Prelude.{◌≡◌};
ghost use Rattle.refusals.specs.{smallest};
ghost use Rattle.holding.specs.{find_sub};
ghost use Rattle.holding_look.specs.{sub_at};
ghost use Rattle.step_plant.specs.{plant_cases, planted_sub, planted};

use forest::Forest;
use holding::{Area, Sub};
use holding_look::{Looked, Stand};
use refusals::{Refusal, Verdict};
use step_outcome::{Outcome, Report};

// By the sub-area as it stands.
#[tactic(auto, unfolding(refusals::specs::Refusals::weigh_all, refusals::specs::Refusals::smallest, refusals::specs::Refusals::weighed, step_outcome::specs::Outcomes::area_cases, crate::specs::Planting::plant_cases))]
fn verdict(
    number: u16,
    sub: u16,
    forest: Forest,
    year: u16,
    found: Option<usize>,
    area: Area,
    stand: Stand,
) -> Verdict
    requires { (stand.found ≡ find_sub area sub) × (stand.sub ≡ sub_at area (find_sub area sub)) }
    ensures { result ≡ smallest (plant_cases number sub forest year found area) }
{
    let standing = stand.sub.forest;
    refusals::refuse_if(
        !(ranges::is_area(number) & ranges::is_sub(sub)),
        Refusal::AreaOrSubNumber,
    )?;
    refusals::refuse_if(ranges::is_bare(forest), Refusal::ForestType)?;
    refusals::refuse_if(!ranges::is_year(year), Refusal::YearRange)?;
    step_outcome::weigh_area(Ok(()), found, area)?;
    refusals::refuse_if(stand.found.is_none(), Refusal::SubUnknown)?;
    refusals::refuse_if(!ranges::is_bare(standing), Refusal::PlantingUnderTrees)?;
    refusals::refuse_if(
        (year < area.open_year) | (year < area.latest),
        Refusal::YearBefore,
    )
}

fn planted_sub(sub: Sub, forest: Forest, year: u16) -> Sub
    ensures { result ≡ planted_sub sub forest year }
{
    let tenths = sub.tenths;
    let residue = sub.residue;
    Sub {
        number: sub.number,
        tenths,
        forest,
        planted: year,
        residue,
    }
}

pub fn plant(looked: Looked, sub: u16, forest: Forest, year: u16) -> Outcome
    ensures { result ≡ planted looked sub forest year }
{
    let found = looked.found;
    let area = looked.area;
    let stand = holding_look::find_stand(area, sub);
    let at = stand.found;
    let before = stand.sub;
    let v = verdict(looked.number, sub, forest, year, found, area, stand);
    match v {
        Err(refusal) => step_outcome::turned(refusal),
        Ok(()) => Outcome {
            verdict: Ok(()),
            report: Report::Nothing,
            place: found,
            count: looked.count,
            area: holding_look::with_sub(area, at, planted_sub(before, forest, year), year),
        },
    }
}
