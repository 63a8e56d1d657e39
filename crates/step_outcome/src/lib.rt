// What a step answers: the verdict, the report, and the one area that comes to stand at a place, of how many.
#![tactic(auto)]

ghost use Rattle.std.specs.Prelude.{◌≡◌};
ghost use Rattle.refusals.specs.{weighed, weigh_all};
ghost use Rattle.step_outcome.specs.{turned_back, placed, uncarried, area_cases};

use holding::{Area, Holding, MOST_AREAS};
use refusals::{Refusal, Verdict};
use units::Change;

// What a return reports: its area, years and change, the units received and due, and the balance.
#[derive(Clone, Copy)]
pub struct Filed {
    pub area: u16,
    pub first: u16,
    pub last: u16,
    pub change: Change,
    pub received: u64,
    pub due: u64,
    pub balance: u64,
}

// What is reported of an area: a return, or the units due on withdrawal.
#[derive(Clone, Copy)]
pub enum Report {
    Nothing,
    Return(Filed),
    Withdrawal { area: u16, due: u64 },
}

// Where a step is turned back there is no place, and the area is the empty one.
#[derive(Clone, Copy)]
pub struct Outcome {
    pub verdict: Verdict,
    pub report: Report,
    pub place: Option<usize>,
    pub count: usize,
    pub area: Area,
}

pub fn turned(refusal: Refusal) -> Outcome
    ensures { result ≡ turned_back refusal }
{
    let area = holding::empty_area();
    Outcome {
        verdict: Err(refusal),
        report: Report::Nothing,
        place: None,
        count: 0,
        area,
    }
}

// 11: the area found has fields that no statement carries.
pub fn weigh_carried(so_far: Verdict, found: Option<usize>, area: Area) -> Verdict
    ensures { result ≡ weighed so_far (uncarried found area) Refusal.CarriedStatement }
{
    let known = holding_look::is_known(found);
    let carried = statement_carried::fields(area);
    refusals::weigh(so_far, known & !carried, Refusal::CarriedStatement)
}

// 11, 22, 23: for a step of an area that was looked up.
#[tactic(auto, unfolding(refusals::specs::Refusals::weigh_all, crate::specs::Outcomes::area_cases, refusals::specs::Refusals::weighed))]
pub fn weigh_area(so_far: Verdict, found: Option<usize>, area: Area) -> Verdict
    ensures { result ≡ weigh_all so_far (area_cases found area) }
{
    let v = weigh_carried(so_far, found, area);
    let known = holding_look::is_known(found);
    let v = refusals::weigh(v, !known, Refusal::AreaUnknown);
    refusals::weigh(v, area.withdrawn, Refusal::AreaWithdrawn)
}

// The holding after a step: the area that comes to stand is placed.
#[tactic(auto, unfolding(crate::specs::Outcomes::placed))]
pub fn place(holding: Holding, outcome: Outcome) -> Holding
    ensures { result ≡ placed holding outcome }
{
    let found = outcome.place;
    let mut after = holding;
    if let Some(i) = found {
        let area = outcome.area;
        if i < MOST_AREAS {
            after.areas[i] = area;
        }
        after.count = outcome.count;
    }
    after
}
