// Document 01's examples of steps: the smallest number, the ages of a stand, and an area whose stock falls before it grows.
use crate::print::{say, say_number, say_refused};
use forest::Forest;
use holding::Holding;
use line_entry::{Act, AreaAct};
use refusals::Verdict;
use std::io;
use step_outcome::{Filed, Outcome, Report};
use units::{Change, Tenths};

// A participant's table: exotic hardwoods of 100, 70 and 120 tonnes.
const FALLING: [u16; 13] = [0, 0, 0, 3, 0, 0, 0, 0, 0, 0, 1000, 700, 1200];

// An act on area 1.
fn apply(own: &[u16], holding: Holding, act: Act) -> Outcome {
    step::enter(own, holding, AreaAct { area: 1, act })
}

fn after(own: &[u16], holding: Holding, act: Act) -> Holding {
    let outcome = apply(own, holding, act);
    step_outcome::place(holding, outcome)
}

// Area 1 of that opening year with 1 ha of trees in its first sub-area.
fn planted(own: &[u16], opening: u16, forest: Forest, year: u16) -> Holding {
    let empty = holding::empty_holding();
    let opened = after(own, empty, Act::Open { opening });
    let stand = Act::Add {
        sub: 1,
        land: Tenths(10),
        forest,
        planted: year,
    };
    after(own, opened, stand)
}

fn say_stock(rt: &impl Print, words: &[u8], holding: Holding) -> io::Result<()> {
    let area = holding.areas[0];
    let stock = area.stock;
    say_number(rt, words, stock.0)?;
    say(rt, b" kg\n")?;
    Ok(())
}

fn say_filed(rt: &impl Print, filed: Filed) -> io::Result<()> {
    let change = filed.change;
    say_number(rt, b"Area ", filed.area as u64)?;
    say_number(rt, b", ", filed.first as u64)?;
    say_number(rt, b" to ", filed.last as u64)?;
    match change {
        Change::Gain(tonnes) => say_number(rt, b": change ", tonnes)?,
        Change::Loss(tonnes) => say_number(rt, b": change -", tonnes)?,
    }
    say_number(rt, b", received ", filed.received)?;
    say_number(rt, b", due ", filed.due)?;
    say_number(rt, b", balance ", filed.balance)?;
    say(rt, b"\n")?;
    Ok(())
}

fn say_return(rt: &impl Print, outcome: Outcome) -> io::Result<()> {
    let report = outcome.report;
    let Report::Return(filed) = report else {
        return say(rt, b"No return\n");
    };
    say_filed(rt, filed)?;
    Ok(())
}

// "Planted 1992, open 2008, last 2012: ages 16 and 21": a cell of 16 t at age 16, one of 21 t at age 21, and 0 at all others.
fn ages(rt: &impl Print) -> io::Result<()> {
    let mut own = [0u16; 33];
    own[1] = 23;
    own[26] = 160;
    own[31] = 210;
    let opened = planted(&own, 2008, Forest::DouglasFir, 1992);
    let filed = after(&own, opened, Act::File { last: 2012 });
    say(
        rt,
        b"\n1 ha planted 1992, opened 2008, last 2012; cells of 16 at age 16, 21 at 21, else 0:\n",
    )?;
    say_stock(rt, b"Opening stock: ", opened)?;
    say_stock(rt, b"Closing stock: ", filed)?;
    Ok(())
}

// "Area of 1 ha, H cells 100,70,120, planted and opened 2010: returns to 2010 and 2011 report −30, 50; due 0; balance 50."
fn falling_return(rt: &impl Print) -> io::Result<()> {
    let own = FALLING;
    let opened = planted(&own, 2010, Forest::ExoticHardwoods, 2010);
    say(
        rt,
        b"\nReturns of 1 ha with cells of 100, 70, 120, planted and opened 2010:\n",
    )?;
    say_return(rt, apply(&own, opened, Act::File { last: 2010 }))?;
    Ok(())
}

fn rising_return(rt: &impl Print) -> io::Result<()> {
    let own = FALLING;
    let opened = planted(&own, 2010, Forest::ExoticHardwoods, 2010);
    let filed = after(&own, opened, Act::File { last: 2010 });
    say_return(rt, apply(&own, filed, Act::File { last: 2011 }))?;
    Ok(())
}

// Whether a step is taken, under words for it.
fn say_taken(
    rt: &impl Print,
    words: &[u8],
    own: &[u16],
    holding: Holding,
    on: AreaAct,
) -> io::Result<()> {
    say(rt, words)?;
    let outcome = step::enter(own, holding, on);
    let verdict = outcome.verdict;
    match verdict {
        Ok(()) => say(rt, b": taken")?,
        Err(refusal) => say_refused(rt, refusal)?,
    }
    say(rt, b"\n")?;
    Ok(())
}

fn opening(area: u16, year: u16) -> AreaAct {
    AreaAct {
        area,
        act: Act::Open { opening: year },
    }
}

// "The smallest number that applies": 2 to 5 of an entry made by hand, 6 of a list that is no table, 11 of an area that no statement carries.
fn no_table(rt: &impl Print) -> io::Result<()> {
    let no_table = [5u16];
    let none = [0u16; 10];
    let empty = holding::empty_holding();
    say(rt, b"\nSteps under the list 5, which is no table:\n")?;
    say_taken(
        rt,
        b"Area 1000 opens in 2010",
        &no_table,
        empty,
        opening(1000, 2010),
    )?;
    say_taken(
        rt,
        b"Area 1 opens in 2007",
        &no_table,
        empty,
        opening(1, 2007),
    )?;
    say_taken(
        rt,
        b"Area 1 opens in 2010",
        &no_table,
        empty,
        opening(1, 2010),
    )?;
    let mut damaged = after(&none, empty, Act::Open { opening: 2010 });
    damaged.areas[0].received = 1;
    let withdrawal = AreaAct {
        area: 1,
        act: Act::Withdraw,
    };
    say_taken(
        rt,
        b"Area 1 withdraws, with a unit of no return",
        &no_table,
        damaged,
        withdrawal,
    )?;
    say_taken(rt, b"The same under a table", &none, damaged, withdrawal)?;
    Ok(())
}

pub(crate) fn print_all(rt: &impl Print) -> io::Result<()> {
    no_table(rt)?;
    ages(rt)?;
    falling_return(rt)?;
    rising_return(rt)?;
    Ok(())
}
