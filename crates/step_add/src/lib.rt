// S adds a sub-area. Both tables are lent: the participant's, and the cells of Schedule 6.
#![tactic(auto)]

ghost use Rattle.std.specs.Prelude.{◌≡◌, ◌<◌, ◌*◌, ◌≤◌};
ghost use Rattle.refusals.specs.{smallest};
ghost use Rattle.holding.specs.{most_subs};
ghost use Rattle.statement_carried.specs.{stock_for_sub};
ghost use Rattle.step_add.specs.{new_sub, add_cases, added_area, added};

use forest::Forest;
use holding::{Area, MOST_SUBS, Residue, Sub};
use holding_look::Looked;
use refusals::{Refusal, Verdict};
use step_outcome::{Outcome, Report};
use units::Tenths;

#[tactic(auto, unfolding(refusals::specs::Refusals::weigh_all, refusals::specs::Refusals::smallest, refusals::specs::Refusals::weighed, step_outcome::specs::Outcomes::area_cases, crate::specs::Adding::add_cases))]
fn verdict(number: u16, sub: Sub, found: Option<usize>, area: Area) -> Verdict
    ensures { result ≡ smallest (add_cases number sub found area) }
{
    let land = sub.tenths;
    let forest = sub.forest;
    refusals::refuse_if(
        !(ranges::is_area(number) & ranges::is_sub(sub.number)),
        Refusal::AreaOrSubNumber,
    )?;
    refusals::refuse_if(!ranges::is_land(land), Refusal::Hectares)?;
    refusals::refuse_if(!ranges::is_planted(forest, sub.planted), Refusal::YearRange)?;
    step_outcome::weigh_area(Ok(()), found, area)?;
    refusals::refuse_if(area.find_sub(sub.number).is_some(), Refusal::SubUsed)?;
    refusals::refuse_if(MOST_SUBS <= area.count, Refusal::SubsFull)?;
    refusals::refuse_if(area.returns != 0, Refusal::AreaFiled)?;
    refusals::refuse_if(area.opening < sub.planted, Refusal::PlantedAfterOpening)
}

fn added_area<'a>(own: &'a [u16], default: &'a [u16], area: Area, sub: Sub) -> Area
    requires { (area.count < most_subs) × (area.stock.0 ≤ stock_for_sub * most_subs) }
    ensures { result ≡ added_area own.now default.now area sub }
{
    let mut after = area;
    let count = after.count;
    let stock = after.stock;
    let more = stocks::sub_stock(own, default, sub, after.opening);
    after.stock = stock.plus(more);
    after.count = count + 1;
    after.subs[count] = sub;
    after
}

fn add_sub<'a>(own: &'a [u16], default: &'a [u16], looked: Looked, sub: Sub) -> Outcome
    ensures { result ≡ added own.now default.now looked sub }
{
    let found = looked.found;
    let area = looked.area;
    let v = verdict(looked.number, sub, found, area);
    match v {
        Err(refusal) => step_outcome::turned(refusal),
        Ok(()) => Outcome {
            verdict: Ok(()),
            report: Report::Nothing,
            place: found,
            count: looked.count,
            area: added_area(own, default, area, sub),
        },
    }
}

// A sub-area enters without residue.
pub fn add<'a>(
    own: &'a [u16],
    default: &'a [u16],
    looked: Looked,
    sub: u16,
    land: Tenths,
    forest: Forest,
    planted: u16,
) -> Outcome
    ensures { result ≡ added own.now default.now looked (new_sub sub land forest planted) }
{
    let residue = Residue {
        forest: Forest::Bare,
        age: 0,
        year: 0,
    };
    let entered = Sub {
        number: sub,
        tenths: land,
        forest,
        planted,
        residue,
    };
    add_sub(own, default, looked, entered)
}
