// The ranges of document 01's entries, which the fields of a carried statement keep too.
#![tactic(auto)]

ghost use Rattle.std.specs.Prelude.{◌≡◌, ◌-◌};
ghost use Rattle.ranges.specs.{is_bare, is_area, is_sub, is_year, is_land, is_planted};

use forest::Forest;
use units::Tenths;

pub const LAST_AREA: u16 = 999;

pub const LAST_SUB: u16 = 99;

pub const FIRST_YEAR: u16 = 2008;

pub const LAST_YEAR: u16 = 2199;

pub const FIRST_PLANTED: u16 = 1900;

// In ten-thousandths of a hectare.
pub const LEAST_HECTARES: u32 = 10000;

pub const MOST_HECTARES: u32 = 100000000;

// In tenths of a hectare.
const LEAST_LAND: u32 = 10;

const MOST_LAND: u32 = 100000;

pub fn is_bare(forest: Forest) -> bool
    ensures { result ≡ is_bare forest }
{
    match forest {
        Forest::Bare => true,
        Forest::Radiata(_) => false,
        Forest::DouglasFir => false,
        Forest::ExoticSoftwoods => false,
        Forest::ExoticHardwoods => false,
        Forest::Indigenous => false,
    }
}

pub fn is_area(number: u16) -> bool
    ensures { result ≡ is_area number }
{
    (1 <= number) & (number <= LAST_AREA)
}

pub fn is_sub(number: u16) -> bool
    ensures { result ≡ is_sub number }
{
    (1 <= number) & (number <= LAST_SUB)
}

pub fn is_year(year: u16) -> bool
    ensures { result ≡ is_year year }
{
    (FIRST_YEAR <= year) & (year <= LAST_YEAR)
}

pub fn is_land(land: Tenths) -> bool
    ensures { result ≡ is_land land }
{
    (LEAST_LAND <= land.0) & (land.0 <= MOST_LAND)
}

// Whether a year of planting goes with a type.
pub fn is_planted(forest: Forest, year: u16) -> bool
    ensures { result ≡ is_planted forest year }
{
    let bare = is_bare(forest);
    (bare & (year == 0)) | (!bare & ((FIRST_PLANTED <= year) & (year <= LAST_YEAR)))
}

// How many years a later year lies after another, 0 where it does not.
pub fn years_from(year: u16, later: u16) -> u16
    ensures { result ≡ later - year }
{
    if later < year {
        return 0;
    }
    later - year
}
