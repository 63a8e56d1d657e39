// The tree groups of one hectare: basal area by species, and the mean age of a type.
#![tactic(auto)]

ghost use Rattle.std.specs.Prelude.{◌≡◌, cond, ◌≤◌, length, take};
ghost use Rattle.land_groups.specs.{most_groups, of_type, area, weighted_age, species_area, weights_of, mean_age};

use forest::Forest;

pub const MOST_GROUPS: usize = 64;

// Trees of one species, type and age, and their basal area in cm².
#[derive(Clone, Copy)]
pub struct Group {
    pub species: u16,
    pub forest: Forest,
    pub age: u16,
    pub basal_area: u32,
}

impl Group {
    pub fn is_of(&self, forest: Forest) -> bool
        ensures { result ≡ of_type forest self.now }
    {
        self.forest == forest
    }
}

// The groups of one hectare, as they are lent; few enough for their sums to have room.
#[derive(Clone, Copy)]
pub struct Groups<'a> {
    pub listed: &'a [Group],
    ghost few: { length listed.now ≤ 64 },
}

// The basal area of groups, and the sum of their ages times their basal areas.
#[derive(Clone, Copy)]
struct Weights {
    area: u64,
    age: u64,
}

// A group's basal area where it counts, else none.
fn area_if(counts: bool, g: Group) -> u64
    ensures { (result ≡ cond counts (area g) 0) × (result ≤ 4294967295) }
{
    if counts {
        return g.basal_area as u64;
    }
    0
}

// A group's age times its basal area where it counts, else none.
fn weighted_if(counts: bool, g: Group) -> u64
    ensures { (result ≡ cond counts (weighted_age g) 0) × (result ≤ 281470681677825) }
{
    if counts {
        return g.age as u64 * g.basal_area as u64;
    }
    0
}

impl<'a> Groups<'a> {
    // The first groups of a list, as many as a hectare may have.
    pub fn first(listed: &'a [Group]) -> Groups<'a>
        ensures { result.listed.now ≡ take most_groups listed.now }
    {
        Groups {
            listed: &listed[..MOST_GROUPS.min(listed.len())],
        }
    }
}

impl Groups<'_> {
    pub fn species_area(&self, species: u16) -> u64
        ensures { result ≡ species_area self.now.listed.now species }
    {
        let mut sum: u64 = 0;
        for g in self.listed {
            sum += area_if(g.species == species, *g);
        }
        sum
    }

    fn type_weights(&self, forest: Forest) -> Weights
        ensures { (result ≡ weights_of self.now.listed.now forest) × (result.area ≤ 274877906880) × (result.age ≤ 18014123627380800) }
    {
        let mut area: u64 = 0;
        let mut age: u64 = 0;
        for g in self.listed {
            let counts = g.is_of(forest);
            area += area_if(counts, *g);
            age += weighted_if(counts, *g);
        }
        Weights { area, age }
    }

    // The mean age of the groups of a type, 0 where there is none.
    pub fn mean_age(&self, forest: Forest) -> u64
        ensures { result ≡ mean_age self.now.listed.now forest }
    {
        let Weights { area, age } = self.type_weights(forest);
        if area == 0 {
            return 0;
        }
        if 2 * (age % area) < area {
            return age / area;
        }
        age / area + 1
    }
}

// Of a list's first groups, as many as a hectare may have, the basal area of a species.
pub fn species_area(groups: &[Group], species: u16) -> u64
    ensures { result ≡ species_area (take most_groups groups.now) species }
{
    Groups::first(groups).species_area(species)
}

// Of the same the mean age of a type, 0 where there is none.
pub fn mean_age(groups: &[Group], forest: Forest) -> u64
    ensures { result ≡ mean_age (take most_groups groups.now) forest }
{
    Groups::first(groups).mean_age(forest)
}
