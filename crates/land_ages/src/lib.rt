// The age of a hectare by its type, from its tree groups.
#![tactic(auto)]

ghost use Rattle.std.specs.Prelude.{◌≡◌, max, take};
ghost use Rattle.land_groups.specs.{most_groups};
ghost use Rattle.land_ages.specs.{age_if, greatest_age, hectare_age};

use forest::Forest;
use land_groups::{Group, Groups};

// The greater of an age and a group's where the group is of the leader's type, else the age.
fn older_age(leader: Group, age: u16, g: Group) -> u16
    ensures { result ≡ max age (age_if leader.forest g) }
{
    if g.is_of(leader.forest) & (age < g.age) {
        return g.age;
    }
    age
}

// The greatest age among the groups of the leader's type, nought where there is none.
fn greatest_age(groups: &Groups, leader: Group) -> u16
    ensures { result ≡ greatest_age groups.now.listed.now leader.forest }
{
    let mut age: u16 = 0;
    for g in groups.listed {
        age = older_age(leader, age, *g);
    }
    age
}

// The age of the hectare whose type is that of `leader`, a group of its predominant species, by a list's first groups, as many as a hectare may have.
pub fn hectare_age(groups: &[Group], leader: Group) -> u64
    ensures { result ≡ hectare_age (take most_groups groups.now) leader.forest }
{
    let groups = Groups::first(groups);
    if leader.is_of(Forest::Indigenous) {
        return u64::from(greatest_age(&groups, leader));
    }
    groups.mean_age(leader.forest)
}
