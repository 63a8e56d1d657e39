// Deforestation of pre-1990 forest land: the emissions of parcels.
#![tactic(auto)]

ghost use Rattle.std.specs.Prelude.{◌≡◌, ◌*◌, ◌≤◌, length, take};
ghost use Rattle.refusals.specs.{smallest};
ghost use Rattle.land_deforestation.specs.{joined, faults_among, cases, emitted_of, total_of, emissions_of};

use land_parcels::{Faults, Parcel};
use refusals::{Refusal, Verdict, refuse_if};
use units::Kilograms;

pub const MOST_PARCELS: usize = 64;

// What is wrong with one or the other.
fn joined(a: Faults, b: Faults) -> Faults
    ensures { result ≡ joined a b }
{
    Faults {
        bare: a.bare | b.bare,
        hectares: a.hectares | b.hectares,
        years: a.years | b.years,
        order: a.order | b.order,
        young: a.young | b.young,
    }
}

fn find_faults(parcels: &[Parcel]) -> Faults
    ensures { result ≡ faults_among parcels.now }
{
    let mut found = Faults {
        bare: false,
        hectares: false,
        years: false,
        order: false,
        young: false,
    };
    for p in parcels {
        found = joined(found, land_parcels::find_faults(p));
    }
    found
}

#[tactic(auto, unfolding(crate::specs::Charge::cases, refusals::specs::Refusals::smallest, refusals::specs::Refusals::weigh_all, refusals::specs::Refusals::weighed))]
fn judge(held: &[Parcel], count: usize) -> Verdict
    ensures { result ≡ smallest (cases count held.now) }
{
    let found = find_faults(held);
    refuse_if(found.bare, Refusal::ForestType)?;
    refuse_if(found.hectares, Refusal::Hectares)?;
    refuse_if(found.years, Refusal::YearRange)?;
    refuse_if((count == 0) | (MOST_PARCELS < count), Refusal::ParcelList)?;
    refuse_if(found.order, Refusal::ParcelList)?;
    refuse_if(found.young, Refusal::NoTreesOfNineYears)
}

// A parcel's emissions, by the cells of Schedule 4.
fn emitted(cells: &[u16], p: &Parcel) -> Kilograms
    ensures { (result ≡ emitted_of cells.now p.now) × (result.0 ≤ 4294967295 * 65535 * 10) }
{
    let counted = land_parcels::counted(p);
    let rate = rates::rate_four(cells, counted.forest, land_clearings::age(counted));
    units::rounded(p.hectares).trees(rate)
}

fn total(cells: &[u16], parcels: &[Parcel]) -> Kilograms
    requires { length parcels.now ≤ 64 }
    ensures { result ≡ total_of cells.now parcels.now }
{
    let mut sum = Kilograms::none();
    for p in parcels {
        sum = sum.plus(emitted(cells, p));
    }
    sum
}

// The emissions in tonnes, or the refusal of a list of `count` parcels, by those of them that are held.
fn charge(held: &[Parcel], count: usize) -> Result<u64, Refusal>
    requires { length held.now ≤ count }
    ensures { result ≡ emissions_of count held.now }
{
    judge(held, count)?;
    let cells = schedules::schedule_four();
    Ok(total(&cells, held).to_tonnes())
}

// Of a list of `count` parcels that stand in an array, as many as it has places for.
pub fn calculate_held(held: &[Parcel; MOST_PARCELS], count: usize) -> Result<u64, Refusal>
    ensures { result ≡ emissions_of count (take count held.now) }
{
    charge(&held[..count.min(MOST_PARCELS)], count)
}

// Of a list that is lent whole.
pub fn calculate(parcels: &[Parcel]) -> Result<u64, Refusal>
    ensures { result ≡ emissions_of (length parcels.now) parcels.now }
{
    charge(parcels, parcels.len())
}
