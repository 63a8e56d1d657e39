// What stands at a place that a search found, an area looked up by its number, and an area with a sub-area put back.
#![tactic(auto)]

ghost use Rattle.std.specs.Prelude.{◌≡◌};
ghost use Rattle.holding.specs.{find_sub};
ghost use Rattle.holding_look.specs.{known, area_at, looked_up, sub_at, with_sub};

use holding::{Area, Holding, MOST_AREAS, MOST_SUBS, Sub};

pub fn is_known(found: Option<usize>) -> bool
    ensures { result ≡ known found }
{
    found.is_some()
}

// The area there, the empty one where none stands.
#[tactic(auto, unfolding(crate::specs::Standing::area_at))]
fn area_at(holding: Holding, found: Option<usize>) -> Area
    ensures { result ≡ area_at holding found }
{
    match found {
        Some(i) if i < MOST_AREAS => holding.areas[i],
        _ => holding::empty_area(),
    }
}

// An area looked up: the number looked for, how many areas stand, where it was found, and the area, the empty one where there is none.
#[derive(Clone, Copy)]
pub struct Looked {
    pub number: u16,
    pub count: usize,
    pub found: Option<usize>,
    pub area: Area,
}

pub fn look_up(holding: Holding, number: u16) -> Looked
    ensures { result ≡ looked_up holding number }
{
    let found = holding.find_area(number);
    let area = area_at(holding, found);
    Looked {
        number,
        count: holding.count,
        found,
        area,
    }
}

// Where a sub-area stands, and the sub-area, the empty one where there is none.
#[derive(Clone, Copy)]
pub struct Stand {
    pub found: Option<usize>,
    pub sub: Sub,
}

// The standing sub-area with the number, in one search.
#[tactic(auto, unfolding(crate::specs::Standing::sub_at))]
pub fn find_stand(area: Area, number: u16) -> Stand
    ensures found_value { result.found ≡ find_sub area number }
    ensures sub_value { result.sub ≡ sub_at area (find_sub area number) }
{
    let found = area.find_sub(number);
    let sub = match found {
        Some(i) => area.subs[i],
        None => holding::EMPTY_SUB,
    };
    Stand { found, sub }
}

// Units of one area or of many.
#[derive(Clone, Copy)]
pub struct Units {
    pub received: u64,
    pub surrendered: u64,
    pub balance: u64,
}

// The area with a sub-area put back at its place, after a clearing or planting in a year: the latest year is the greatest.
#[tactic(auto, unfolding(crate::specs::Standing::with_sub))]
pub fn with_sub(area: Area, found: Option<usize>, sub: Sub, year: u16) -> Area
    ensures { result ≡ with_sub area found sub year }
{
    let mut after = area;
    after.latest = area.latest.max(year);
    match found {
        Some(i) if i < MOST_SUBS => after.subs[i] = sub,
        _ => {}
    }
    after
}
