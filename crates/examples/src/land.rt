// The guide's examples of pre-1990 land and of the trees of a hectare (002, 4.3, 4.5 and 5.2).
ghost use Rattle.std.specs.Prelude.{◌≡◌};
ghost use Rattle.land_trees.specs.{hectare_of};

use crate::print::{say, say_forest, say_number, say_refused};
use forest::{Forest, Region};
use land_clearings::Clearing;
use land_groups::Group;
use land_parcels::Parcel;
use land_trees::Hectare;
use refusals::Refusal;
use std::io;

// The emissions of parcels, under a name for them.
fn emitted(rt: &impl Print, name: &[u8], parcels: &[Parcel]) -> io::Result<()> {
    say(rt, name)?;
    match land_deforestation::calculate(parcels) {
        Ok(tonnes) => {
            say_number(rt, b": ", tonnes)?;
            say(rt, b" t")?;
        }
        Err(refusal) => say_refused(rt, refusal)?,
    }
    say(rt, b"\n")?;
    Ok(())
}

// A parcel cleared in 2013, with no earlier clearing.
fn stand(hectares: u32, forest: Forest, planted: u16) -> Parcel {
    let none = Clearing {
        forest: Forest::Bare,
        planted: 0,
        cleared: 0,
    };
    Parcel {
        hectares,
        forest,
        planted,
        cleared: 2013,
        earlier: [none; 4],
        count: 0,
    }
}

// "88.34 hectares of 34-year-old Douglas fir"; and example a of 4.5.
fn single_stands(rt: &impl Print) -> io::Result<()> {
    say(rt, b"\nPre-1990 land, a single stand:\n")?;
    let single = stand(883400, Forest::DouglasFir, 1979);
    emitted(rt, b"88.34 ha of Douglas fir, 34 years", &[single])?;
    let hectare = stand(10000, Forest::DouglasFir, 1985);
    emitted(rt, b"1 ha of Douglas fir, 28 years", &[hectare])?;
    Ok(())
}

fn three_stands(rt: &impl Print) -> io::Result<()> {
    say(rt, b"\nThree stands:\n")?;
    let stands = [
        stand(1001300, Forest::Radiata(Region::Auckland), 1985),
        stand(555200, Forest::DouglasFir, 1985),
        stand(300400, Forest::ExoticHardwoods, 2002),
    ];
    emitted(
        rt,
        b"100.13 ha of radiata P1 and 55.52 ha of Douglas fir, 28 years, and 30.04 ha of exotic hardwoods, 11 years",
        &stands,
    )?;
    Ok(())
}

// A hectare of Douglas fir planted in 2008, when radiata of 40 years was cleared.
fn replanted(cleared: u16) -> Parcel {
    let radiata = Clearing {
        forest: Forest::Radiata(Region::Auckland),
        planted: 1968,
        cleared: 2008,
    };
    Parcel {
        hectares: 10000,
        forest: Forest::DouglasFir,
        planted: 2008,
        cleared,
        earlier: [radiata; 4],
        count: 1,
    }
}

// Examples b and c of 4.5.
fn replanted_stands(rt: &impl Print) -> io::Result<()> {
    say(rt, b"\nDouglas fir after radiata P1 of 40 years:\n")?;
    let young = replanted(2012);
    emitted(rt, b"1 ha, 4 years", &[young])?;
    let old = replanted(2017);
    emitted(rt, b"1 ha, 9 years", &[old])?;
    Ok(())
}

// Three tree groups, lent as a list.
fn determined(groups: [Group; 3]) -> Result<Hectare, Refusal>
    ensures { result ≡ hectare_of groups }
{
    land_trees::determine(&groups)
}

// The type and age of a hectare, under a name for its trees.
fn say_hectare(rt: &impl Print, name: &[u8], groups: [Group; 3]) -> io::Result<()> {
    say(rt, name)?;
    match determined(groups) {
        Ok(hectare) => {
            say_forest(rt, b": ", hectare.forest)?;
            say_number(rt, b", age ", u64::from(hectare.age))?;
        }
        Err(refusal) => say_refused(rt, refusal)?,
    }
    say(rt, b"\n")?;
    Ok(())
}

fn group(species: u16, forest: Forest, age: u16, basal_area: u32) -> Group {
    Group {
        species,
        forest,
        age,
        basal_area,
    }
}

// The example of 4.3: "60 percent, 30 percent and 10 percent of the total"; it names no ages.
fn predominant_species(rt: &impl Print) -> io::Result<()> {
    let radiata = group(1, Forest::Radiata(Region::Auckland), 28, 60);
    let redwood = group(2, Forest::ExoticSoftwoods, 30, 30);
    let muricata = group(3, Forest::ExoticSoftwoods, 15, 10);
    say(
        rt,
        b"\nThe predominant species of the guide's section 4.3, in Northland:\n",
    )?;
    say_hectare(
        rt,
        b"Radiata, redwood and Pinus muricata of 28, 30 and 15 years at 60, 30 and 10 percent",
        [radiata, redwood, muricata],
    )?;
    Ok(())
}

// Two eucalypts of 12 and 9 years at 3 to 1, beside old kanuka.
fn mixed_hectare(rt: &impl Print) -> io::Result<()> {
    let nitens = group(1, Forest::ExoticHardwoods, 12, 3000);
    let fraxinoides = group(2, Forest::ExoticHardwoods, 9, 1000);
    let kanuka = group(3, Forest::Indigenous, 90, 500);
    say(rt, b"\nA mixed hectare:\n")?;
    say_hectare(
        rt,
        b"Eucalypts of 12 and 9 years at 3 to 1, and old kanuka",
        [nitens, fraxinoides, kanuka],
    )?;
    Ok(())
}

fn indigenous(species: u16, age: u16, basal_area: u32) -> Group {
    group(species, Forest::Indigenous, age, basal_area)
}

// Document 02, item 1: "the greatest age among its N groups".
fn oldest_stems(rt: &impl Print) -> io::Result<()> {
    let young = indigenous(1, 12, 300);
    let old = indigenous(1, 40, 100);
    let middle = indigenous(1, 25, 200);
    let totara = indigenous(2, 45, 50);
    let radiata = group(3, Forest::Radiata(Region::Auckland), 60, 50);
    say(rt, b"\nIndigenous hectares:\n")?;
    say_hectare(rt, b"Kanuka of 12, 40 and 25 years", [young, old, middle])?;
    say_hectare(
        rt,
        b"Kanuka of 12 and 25 years, and totara of 45",
        [young, middle, totara],
    )?;
    say_hectare(
        rt,
        b"Kanuka of 12 and 25 years, and radiata of 60",
        [young, middle, radiata],
    )?;
    Ok(())
}

// The example of 4.5, in which regeneration began in 2001; it names no later seedlings.
fn regenerated_hectare(rt: &impl Print) -> io::Result<()> {
    say(
        rt,
        b"\nThe regenerated forest of the guide's section 4.5, with seedlings of 2001, 2004 and 2007:\n",
    )?;
    say_hectare(
        rt,
        b"At the start of 2008",
        [
            indigenous(1, 7, 50),
            indigenous(1, 4, 200),
            indigenous(1, 1, 100),
        ],
    )?;
    say_hectare(
        rt,
        b"At the end of 2012",
        [
            indigenous(1, 12, 50),
            indigenous(1, 9, 200),
            indigenous(1, 6, 100),
        ],
    )?;
    Ok(())
}

pub(crate) fn print_all(rt: &impl Print) -> io::Result<()> {
    single_stands(rt)?;
    three_stands(rt)?;
    replanted_stands(rt)?;
    predominant_species(rt)?;
    mixed_hectare(rt)?;
    oldest_stems(rt)?;
    regenerated_hectare(rt)?;
    Ok(())
}
