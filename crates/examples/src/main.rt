// Prints what the engine answers to the examples of document 01 that carry no mark, and to those of the guide (002).
// What the documents say is in the file `stdout`, which the gate compares.
#![tactic(auto)]

mod cells;
mod land;
mod lines;
mod print;
mod steps;

use std::io;

fn main(rt: HostRuntime) -> io::Result<()> {
    cells::print_all(&rt)?;
    lines::print_all(&rt)?;
    land::print_all(&rt)?;
    steps::print_all(&rt)?;
    Ok(())
}
