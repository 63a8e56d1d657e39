// The carbon stock of a sub-area and of an area on 1 January of a year.
#![tactic(auto)]

ghost use Rattle.std.specs.Prelude.{◌≡◌, ◌*◌, ◌≤◌};
ghost use Rattle.stocks.specs.{trees_on, residue_on, sub_stock, area_stock};

use holding::{Area, Sub};
use schedules::Kind;
use units::Kilograms;

fn trees_on<'a>(own: &'a [u16], default: &'a [u16], sub: Sub, year: u16) -> Kilograms
    ensures { (result ≡ trees_on own.now default.now sub year) × (result.0 ≤ 4294967295 * 65535 * 10) }
{
    if year < sub.planted {
        return Kilograms::none();
    }
    let land = sub.tenths;
    let forest = sub.forest;
    let age = ranges::years_from(sub.planted, year);
    let rate = rates::rate_six(own, default, Kind::Stock, forest, age);
    land.trees(rate)
}

// Nothing is looked up of a residue that has decayed, nor where there is none, which is of the year 0.
fn residue_on<'a>(own: &'a [u16], default: &'a [u16], sub: Sub, year: u16) -> Kilograms
    ensures { (result ≡ residue_on own.now default.now sub year) × (result.0 ≤ 4294967295 * 65535 * 255) }
{
    let land = sub.tenths;
    let residue = sub.residue;
    if year <= residue.year {
        return Kilograms::none();
    }
    let share = rates::share(ranges::years_from(residue.year, year));
    if share == 0 {
        return Kilograms::none();
    }
    let forest = residue.forest;
    let rate = rates::rate_six(own, default, Kind::Residue, forest, residue.age);
    land.residue(rate, share)
}

// Both tables are lent: the participant's, and the cells of Schedule 6.
pub fn sub_stock<'a>(own: &'a [u16], default: &'a [u16], sub: Sub, year: u16) -> Kilograms
    ensures { (result ≡ sub_stock own.now default.now sub year) × (result.0 ≤ 4294967295 * 65535 * 265) }
{
    let trees = trees_on(own, default, sub, year);
    let residue = residue_on(own, default, sub, year);
    trees.plus(residue)
}

pub fn area_stock<'a>(own: &'a [u16], default: &'a [u16], area: Area, year: u16) -> Kilograms
    ensures { result ≡ area_stock own.now default.now area year }
{
    let mut sum = Kilograms::none();
    for sub in area.standing() {
        let stock = sub_stock(own, default, *sub, year);
        sum = sum.plus(stock);
    }
    sum
}
