// A parcel of pre-1990 forest land that is deforested: the trees that count, and what refuses the parcel.
#![tactic(auto)]

ghost use Rattle.std.specs.Prelude.{◌≡◌};
ghost use Rattle.land_parcels.specs.{own_clearing, earlier_of, counted_of, clears_bare, off_years, out_of_years, misordered, amiss_of, faults_of};

use forest::Forest;
use land_clearings::{Clearing, MOST_EARLIER};

// Hectares are ten-thousandths; the earlier clearings are the first `count`. The count stands beside an array, and not for a slice, since
// land_parcels/past_the_count tells what is past it from what is not.
#[derive(Clone, Copy)]
pub struct Parcel {
    pub hectares: u32,
    pub forest: Forest,
    pub planted: u16,
    pub cleared: u16,
    pub earlier: [Clearing; MOST_EARLIER],
    pub count: usize,
}

// What is wrong with a parcel.
#[derive(Clone, Copy)]
pub struct Faults {
    pub bare: bool,
    pub hectares: bool,
    pub years: bool,
    pub order: bool,
    pub young: bool,
}

// What is wrong with some clearing of a parcel.
#[derive(Clone, Copy)]
struct Amiss {
    bare: bool,
    years: bool,
    order: bool,
}

impl Parcel {
    fn own_clearing(&self) -> Clearing
        ensures { result ≡ own_clearing self.now }
    {
        Clearing {
            forest: self.forest,
            planted: self.planted,
            cleared: self.cleared,
        }
    }

    // The earlier clearings that are given: none past the last place.
    fn earlier(&self) -> &[Clearing]
        ensures { result.now ≡ earlier_of self.now }
    {
        &self.earlier[..self.count.min(MOST_EARLIER)]
    }
}

// The clearing whose trees count.
pub fn counted(p: &Parcel) -> Clearing
    ensures { result ≡ counted_of p.now }
{
    land_clearings::counting(p.own_clearing(), p.earlier())
}

fn clears_bare(c: &Clearing) -> bool
    ensures { result ≡ clears_bare c.now }
{
    c.forest == Forest::Bare
}

fn off_years(year: u16) -> bool
    ensures { result ≡ off_years year }
{
    (year < ranges::FIRST_PLANTED) | (ranges::LAST_YEAR < year)
}

fn out_of_years(c: &Clearing) -> bool
    ensures { result ≡ out_of_years c.now }
{
    off_years(c.planted) | off_years(c.cleared)
}

fn is_misordered(last: u16, c: &Clearing) -> bool
    ensures { result ≡ misordered last c.now }
{
    (c.cleared < c.planted) | (last < c.cleared)
}

fn find_amiss(own: &Clearing, earlier: &[Clearing]) -> Amiss
    ensures { result ≡ amiss_of own.now earlier.now }
{
    let last = own.cleared;
    Amiss {
        bare: clears_bare(own) | earlier.iter().any(|c| clears_bare(c)),
        years: out_of_years(own) | earlier.iter().any(|c| out_of_years(c)),
        order: is_misordered(last, own) | earlier.iter().any(|c| is_misordered(last, c)),
    }
}

pub fn find_faults(p: &Parcel) -> Faults
    ensures { result ≡ faults_of p.now }
{
    let amiss = find_amiss(&p.own_clearing(), p.earlier());
    let age = land_clearings::age(counted(p));
    Faults {
        bare: amiss.bare,
        hectares: (p.hectares < ranges::LEAST_HECTARES) | (ranges::MOST_HECTARES < p.hectares),
        years: (p.cleared < ranges::FIRST_YEAR) | amiss.years,
        order: (MOST_EARLIER < p.count) | amiss.order,
        young: age < land_clearings::LEAST_AGE,
    }
}
