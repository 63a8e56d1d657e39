// The state of the accounts: a holding of accounting areas, each of sub-areas, by value.
#![tactic(auto)]

ghost use Rattle.std.specs.Prelude.{◌≡◌, ◌<◌, replicate, IfSome};
ghost use Rattle.holding.specs.{most_areas, most_subs, areas_of, subs_of, empty_sub, empty_area, empty_holding, numbers_in, find_area, find_sub};

use forest::Forest;
use units::{Kilograms, Tenths};

// The most areas that a holding has, and the most sub-areas that an area has.
pub const MOST_AREAS: usize = 16;

pub const MOST_SUBS: usize = 48;

// What is left of the latest clearing: the type and age of the trees cleared, and the year. Bare land where there is none.
#[derive(Clone, Copy)]
pub struct Residue {
    pub forest: Forest,
    pub age: u16,
    pub year: u16,
}

// A sub-area, its fields so wide and in such an order that they leave no room between or behind them.
#[derive(Clone, Copy)]
pub struct Sub {
    pub tenths: Tenths,
    pub planted: u16,
    pub forest: Forest,
    pub residue: Residue,
    pub number: u16,
}

// What a place holds where no sub-area stands.
pub const EMPTY_SUB: Sub = Sub {
    tenths: Tenths(0),
    planted: 0,
    forest: Forest::Bare,
    residue: Residue {
        forest: Forest::Bare,
        age: 0,
        year: 0,
    },
    number: 0,
};

// An accounting area. The stock is the last closing stock, or the opening stock before the first return.
#[derive(Clone, Copy)]
pub struct Area {
    pub number: u16,
    pub opening: u16,
    pub open_year: u16,
    pub latest: u16,
    pub withdrawn: bool,
    pub returns: u16,
    pub stock: Kilograms,
    pub received: u64,
    pub surrendered: u64,
    pub count: usize,
    pub subs: [Sub; MOST_SUBS],
}

// The first `count` areas stand; the other places hold the empty area.
#[derive(Clone, Copy)]
pub struct Holding {
    pub count: usize,
    pub areas: [Area; MOST_AREAS],
}

// The places of an area with no sub-area.
fn no_subs() -> [Sub; MOST_SUBS]
    ensures { result ≡ replicate most_subs empty_sub }
{
    [EMPTY_SUB; MOST_SUBS]
}

pub fn empty_area() -> Area
    ensures { result ≡ empty_area }
{
    Area {
        number: 0,
        opening: 0,
        open_year: 0,
        latest: 0,
        withdrawn: false,
        returns: 0,
        stock: Kilograms::none(),
        received: 0,
        surrendered: 0,
        count: 0,
        subs: no_subs(),
    }
}

pub fn empty_holding() -> Holding
    ensures { result ≡ empty_holding }
{
    Holding {
        count: 0,
        areas: [empty_area(); MOST_AREAS],
    }
}

impl Area {
    // The sub-areas that stand.
    pub fn standing(&self) -> &[Sub]
        ensures { result.now ≡ subs_of self.now }
    {
        &self.subs[..self.count.min(MOST_SUBS)]
    }

    // The place of the standing sub-area with the number.
    #[tactic(auto, unfolding(crate::specs::Areas::find_sub, crate::specs::Areas::place_from))]
    pub fn find_sub(&self, number: u16) -> Option<usize>
        ensures value { result ≡ find_sub self.now number }
        ensures stands { IfSome result (λ i. i < most_subs) }
    {
        self.standing().iter().position(|sub| sub.number == number)
    }
}

impl Holding {
    // The areas that stand.
    pub fn standing(&self) -> &[Area]
        ensures { result.now ≡ areas_of self.now }
    {
        &self.areas[..self.count.min(MOST_AREAS)]
    }

    // The place of the standing area with the number.
    #[tactic(auto, unfolding(crate::specs::Areas::find_area, crate::specs::Areas::place_from))]
    pub fn find_area(&self, number: u16) -> Option<usize>
        ensures value { result ≡ find_area self.now number }
        ensures stands { IfSome result (λ i. i < most_areas) }
    {
        self.standing()
            .iter()
            .position(|area| area.number == number)
    }
}

// The number of every area of a holding, those that do not stand too.
pub fn numbers_of(holding: Holding) -> [u16; MOST_AREAS]
    ensures { result ≡ numbers_in holding.areas }
{
    let mut numbers = [0u16; MOST_AREAS];
    for (k, area) in holding.areas.iter().enumerate() {
        numbers[k] = area.number;
    }
    numbers
}
