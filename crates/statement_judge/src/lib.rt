// Whether a statement carries a holding.
#![tactic(auto)]

ghost use Rattle.std.specs.Prelude.{◌≡◌, max};
ghost use Rattle.laws.specs.{every};
ghost use Rattle.holding.specs.{areas_of, subs_of, residues_in, Area};
ghost use Rattle.statement_carried.specs.{residue_carried, sub_carried, area_carried, carried};

use holding::{Area, Holding, MOST_AREAS, MOST_SUBS, Residue, Sub};
use statement_carried::OLDEST_RESIDUE;

// Whether a residue is carried in any area of this opening and latest year.
fn residue(opening: u16, latest: u16, residue: Residue) -> bool
    ensures { (area : Area) → area.opening ≡ opening → area.latest ≡ latest → result ≡ every (residue_carried area) (residues_in residue) }
{
    let forest = residue.forest;
    if ranges::is_bare(forest) {
        return (residue.age == 0) & (residue.year == 0);
    }
    (opening <= residue.year) & (residue.year <= latest) & (residue.age <= OLDEST_RESIDUE)
}

// Whether a sub-area is carried in any area of this opening and latest year.
fn sub(opening: u16, latest: u16, sub: Sub) -> bool
    ensures { (area : Area) → area.opening ≡ opening → area.latest ≡ latest → result ≡ sub_carried area sub }
{
    let land = sub.tenths;
    let forest = sub.forest;
    let left = sub.residue;
    ranges::is_sub(sub.number)
        & ranges::is_land(land)
        & ranges::is_planted(forest, sub.planted)
        & (sub.planted <= opening.max(latest))
        & residue(opening, latest, left)
}

// The conditions of one area, its sub-areas gone through once but for their numbers.
pub fn area(area: Area) -> bool
    ensures { result ≡ area_carried area }
{
    let subs = area.standing();
    let mut kept = statement_carried::fields(area);
    let mut borne = [0u16; MOST_SUBS];
    for (i, one) in subs.iter().enumerate() {
        kept = kept & sub(area.opening, area.latest, *one);
        borne[i] = one.number;
    }
    kept & statement_distinct::numbers(&borne[..subs.len()])
}

fn areas(holding: Holding) -> bool
    ensures { result ≡ every area_carried (areas_of holding) }
{
    holding.standing().iter().all(|one| area(*one))
}

// The list of a statement's conditions, each area and sub-area gone through once but for their numbers.
pub fn holding(holding: Holding) -> bool
    ensures { result ≡ carried holding }
{
    (holding.count <= MOST_AREAS) & areas(holding) & statement_distinct::areas(holding)
}
