// Cells of the tables, stocks and changes.
use crate::print::{say, say_forest, say_number, say_tenths};
use forest::{Forest, Region};
use schedules::Kind;
use std::io;
use units::{Change, Kilograms, Rate, Tenths};

// The table of document 01's printed case: Douglas fir alone, stock and residue.
const PRINTED: [u16; 20] = [
    0, 5, 0, 0, 0, 0, 5, 0, 0, 0, 0, 10, 45, 100, 200, 0, 5, 20, 50, 80,
];

// 45.83 ha, in ten-thousandths.
const STAND: u32 = 458300;

fn say_cell(rt: &impl Print, forest: Forest, age: u16, rate: Rate) -> io::Result<()> {
    say_forest(rt, b", ", forest)?;
    say_number(rt, b", age ", age as u64)?;
    say_tenths(rt, b": ", rate.0 as u64)?;
    say(rt, b"\n")?;
    Ok(())
}

// A cell of Schedule 6, or of the participant's table.
fn say_six(
    rt: &impl Print,
    name: &[u8],
    own: &[u16],
    kind: Kind,
    forest: Forest,
    age: u16,
) -> io::Result<()> {
    let default = schedules::schedule_six();
    let rate = rates::rate_six(own, &default, kind, forest, age);
    say(rt, name)?;
    match kind {
        Kind::Stock => say(rt, b", stock")?,
        Kind::Residue => say(rt, b", residue")?,
    }
    say_cell(rt, forest, age, rate)?;
    Ok(())
}

fn six(rt: &impl Print, kind: Kind, forest: Forest, age: u16) -> io::Result<()> {
    let none = [0u16; 0];
    say_six(rt, b"Schedule 6", &none, kind, forest, age)?;
    Ok(())
}

fn own(rt: &impl Print, kind: Kind, forest: Forest, age: u16) -> io::Result<()> {
    let own = PRINTED;
    say_six(rt, b"Participant", &own, kind, forest, age)?;
    Ok(())
}

fn four(rt: &impl Print, forest: Forest, age: u16) -> io::Result<()> {
    let cells = schedules::schedule_four();
    let rate = rates::rate_four(&cells, forest, age);
    say(rt, b"Schedule 4")?;
    say_cell(rt, forest, age, rate)?;
    Ok(())
}

// The default cells that the guide's section 6.2 cites.
fn post_1989_cells(rt: &impl Print) -> io::Result<()> {
    let auckland = Forest::Radiata(Region::Auckland);
    say(
        rt,
        b"Cells that the guide's section 6.2 cites, in tonnes per hectare:\n",
    )?;
    six(rt, Kind::Stock, auckland, 12)?;
    six(rt, Kind::Stock, auckland, 17)?;
    six(rt, Kind::Stock, auckland, 22)?;
    six(rt, Kind::Residue, auckland, 18)?;
    six(rt, Kind::Stock, Forest::ExoticHardwoods, 4)?;
    Ok(())
}

// Ages at the ends of a column: below the first, at the first, beyond the last.
fn ends_of_columns(rt: &impl Print) -> io::Result<()> {
    let auckland = Forest::Radiata(Region::Auckland);
    say(rt, b"\nThe ends of columns:\n")?;
    six(rt, Kind::Residue, auckland, 0)?;
    six(rt, Kind::Residue, auckland, 1)?;
    six(rt, Kind::Residue, Forest::Indigenous, 50)?;
    six(rt, Kind::Residue, Forest::Indigenous, 299)?;
    six(rt, Kind::Stock, Forest::Bare, 20)?;
    Ok(())
}

// The default cells that the guide's sections 4.5 and 5.2 cite.
fn pre_1990_cells(rt: &impl Print) -> io::Result<()> {
    let auckland = Forest::Radiata(Region::Auckland);
    say(rt, b"\nCells that the guide's sections 4.5 and 5.2 cite:\n")?;
    four(rt, auckland, 28)?;
    four(rt, Forest::DouglasFir, 28)?;
    four(rt, Forest::ExoticHardwoods, 11)?;
    four(rt, Forest::DouglasFir, 34)?;
    four(rt, auckland, 40)?;
    four(rt, Forest::DouglasFir, 9)?;
    Ok(())
}

// The participant's column serves, and the default one where the participant has none.
fn participants_cells(rt: &impl Print) -> io::Result<()> {
    say(
        rt,
        b"\nThe table of the printed case, Douglas fir alone, before Schedule 6:\n",
    )?;
    own(rt, Kind::Stock, Forest::DouglasFir, 2)?;
    own(rt, Kind::Residue, Forest::DouglasFir, 3)?;
    own(rt, Kind::Stock, Forest::DouglasFir, 9)?;
    own(rt, Kind::Stock, Forest::ExoticHardwoods, 4)?;
    Ok(())
}

// The stock of trees on the stand.
fn trees(rt: &impl Print, rate: u16) -> io::Result<()> {
    let stock = units::rounded(STAND).trees(Rate(rate));
    say_tenths(rt, b"Trees on 45.83 ha at ", rate as u64)?;
    say_number(rt, b": ", stock.0)?;
    say(rt, b" kg\n")?;
    Ok(())
}

// What is left of a residue on the stand.
fn residue(rt: &impl Print, rate: u16, years: u16) -> io::Result<()> {
    let share = rates::share(years);
    let stock = units::rounded(STAND).residue(Rate(rate), share);
    say_tenths(rt, b"Residue on 45.83 ha at ", rate as u64)?;
    say_number(rt, b", after ", years as u64)?;
    say_number(rt, b" years: ", stock.0)?;
    say(rt, b" kg\n")?;
    Ok(())
}

fn change(rt: &impl Print, opening: Kilograms, closing: Kilograms) -> io::Result<()> {
    say_number(rt, b"From ", opening.0)?;
    say_number(rt, b" kg to ", closing.0)?;
    let change = opening.change_to(closing);
    match change {
        Change::Gain(tonnes) => say_number(rt, b" kg: ", tonnes)?,
        Change::Loss(tonnes) => say_number(rt, b" kg: -", tonnes)?,
    }
    say(rt, b" t\n")?;
    Ok(())
}

// Land that was felled four years ago and planted with hardwoods: its residue and its trees.
fn felled(land: Tenths) -> Kilograms {
    let residue = land.residue(Rate(2270), rates::share(4));
    let trees = land.trees(Rate(340));
    residue.plus(trees)
}

// The stocks and changes of the guide's section 6.2.
fn stocks_and_changes(rt: &impl Print) -> io::Result<()> {
    say(rt, b"\nStocks and changes of the guide's section 6.2:\n")?;
    trees(rt, 2490)?;
    trees(rt, 340)?;
    residue(rt, 2270, 4)?;
    let stand = units::rounded(STAND);
    let opening = stand.trees(Rate(2490));
    let grown = stand.trees(Rate(4350));
    change(rt, opening, grown)?;
    change(rt, grown, felled(stand))?;
    let left = units::rounded(248300).trees(Rate(6200));
    let partly = left.plus(felled(units::rounded(210000)));
    change(rt, grown, partly)?;
    Ok(())
}

pub(crate) fn print_all(rt: &impl Print) -> io::Result<()> {
    post_1989_cells(rt)?;
    ends_of_columns(rt)?;
    pre_1990_cells(rt)?;
    participants_cells(rt)?;
    stocks_and_changes(rt)?;
    Ok(())
}
