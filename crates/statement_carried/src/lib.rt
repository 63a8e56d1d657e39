// What a holding keeps so that a statement carries it. A step tests the fields of the one area that it touches.
#![tactic(auto)]

ghost use Rattle.std.specs.Prelude.{◌≡◌, ◌≤◌};
ghost use Rattle.holding.specs.{most_subs};
ghost use Rattle.statement_carried.specs.{years_carried, amounts_carried, fields_carried};

use holding::{Area, MOST_SUBS};

const LAST_OPEN_YEAR: u16 = ranges::LAST_YEAR + 1;

// The oldest trees that were cleared, in years.
pub const OLDEST_RESIDUE: u16 = 299;

const STOCK_FOR_SUB: u64 = 60_000_000_000;

const RECEIVED_FOR_RETURN: u64 = 3_000_000_000;

fn years(area: Area) -> bool
    ensures { result ≡ years_carried area }
{
    let opening = area.opening;
    let open_year = area.open_year;
    let latest = area.latest;
    let returns = area.returns;
    ranges::is_year(opening)
        & ((latest == 0) | ranges::is_year(latest))
        & (open_year <= LAST_OPEN_YEAR)
        & (opening <= open_year)
        & ((open_year == opening) == (returns == 0))
        & (returns as u32 + opening as u32 <= open_year as u32)
}

fn amounts(area: Area) -> bool
    requires { area.count ≤ most_subs }
    ensures { result ≡ amounts_carried area }
{
    let stock = area.stock;
    (stock.0 <= STOCK_FOR_SUB * area.count as u64)
        & (area.received <= RECEIVED_FOR_RETURN * area.returns as u64)
        & (area.surrendered <= area.received)
        & (!area.withdrawn | (area.surrendered == area.received))
}

// An area's own fields.
pub fn fields(area: Area) -> bool
    ensures { result ≡ fields_carried area }
{
    if MOST_SUBS < area.count {
        return false;
    }
    let number = area.number;
    ranges::is_area(number) & years(area) & amounts(area)
}
