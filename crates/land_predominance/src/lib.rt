// The predominant species of a hectare's tree groups.
#![tactic(auto)]

ghost use Rattle.std.specs.Prelude.{◌≡◌, take};
ghost use Rattle.land_groups.specs.{most_groups};
ghost use Rattle.land_predominance.specs.{comes_before, leading, predominant_of};

use forest::Forest;
use land_groups::{Group, Groups};

fn comes_before(total: u64, species: u16, other_total: u64, other: u16) -> bool
    ensures { result ≡ comes_before total species other_total other }
{
    (other_total < total) | ((total == other_total) & (species < other))
}

fn lead(groups: &Groups, leader: Group, g: Group) -> Group
    ensures { result ≡ leading groups.now.listed.now leader g }
{
    let total = groups.species_area(g.species);
    let most = groups.species_area(leader.species);
    if comes_before(total, g.species, most, leader.species) {
        return g;
    }
    leader
}

// A group of the predominant species.
fn leader_of(groups: &Groups) -> Group
    ensures { result ≡ predominant_of groups.now.listed.now }
{
    let none = Group {
        species: 0,
        forest: Forest::Bare,
        age: 0,
        basal_area: 0,
    };
    let Some((first, others)) = groups.listed.split_first() else {
        return none;
    };
    let mut leader = *first;
    for g in others {
        leader = lead(groups, leader, *g);
    }
    leader
}

// A group of the predominant species of a list's first groups, as many as a hectare may have.
pub fn predominant(groups: &[Group]) -> Group
    ensures { result ≡ predominant_of (take most_groups groups.now) }
{
    leader_of(&Groups::first(groups))
}
