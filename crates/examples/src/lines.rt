// Lines read and refused, by the bytes (document 01, "Entries" and "Turned back by the input"; 002, 4.6).
use crate::print::{say, say_forest, say_number, say_refused, say_tenths};
use forest::Forest;
use line_entry::{Act, Entry, Parsed};
use std::io;

fn say_added(
    rt: &impl Print,
    sub: u16,
    tenths: u32,
    forest: Forest,
    planted: u16,
) -> io::Result<()> {
    say_number(rt, b" adds sub ", sub as u64)?;
    say_tenths(rt, b", ", tenths as u64)?;
    say_forest(rt, b" ha, ", forest)?;
    say_number(rt, b", planted ", planted as u64)?;
    Ok(())
}

fn say_act(rt: &impl Print, act: Act) -> io::Result<()> {
    match act {
        Act::Open { opening } => say_number(rt, b" opens in ", opening as u64)?,
        Act::Add {
            sub,
            land,
            forest,
            planted,
        } => say_added(rt, sub, land.0, forest, planted)?,
        Act::Clear { sub, year } => {
            say_number(rt, b" clears sub ", sub as u64)?;
            say_number(rt, b" in ", year as u64)?;
        }
        Act::Plant { sub, forest, year } => {
            say_number(rt, b" plants sub ", sub as u64)?;
            say_forest(rt, b", ", forest)?;
            say_number(rt, b", in ", year as u64)?;
        }
        Act::File { last } => say_number(rt, b" files to ", last as u64)?,
        Act::Withdraw => say(rt, b" withdraws")?,
    }
    Ok(())
}

fn say_entry(rt: &impl Print, entry: Entry) -> io::Result<()> {
    match entry {
        Entry::Column { column } => say_number(rt, b": column ", column as u64)?,
        Entry::On(on) => {
            let act = on.act;
            say_number(rt, b": area ", on.area as u64)?;
            say_act(rt, act)?;
        }
    }
    Ok(())
}

// What a line says, under a name for it.
fn read_named(rt: &impl Print, name: &[u8], line: &[u8]) -> io::Result<()> {
    say(rt, name)?;
    let parsed = line::parse(line);
    match parsed {
        Ok(entry) => say_entry(rt, entry)?,
        Err(refusal) => say_refused(rt, refusal)?,
    }
    say(rt, b"\n")?;
    Ok(())
}

fn read(rt: &impl Print, line: &[u8]) -> io::Result<()> {
    read_named(rt, line, line)?;
    Ok(())
}

// A line too long to print, under a name for it and its length.
fn read_long(rt: &impl Print, name: &[u8], line: &[u8]) -> io::Result<()> {
    say(rt, name)?;
    say_number(rt, b" (", line.len() as u64)?;
    read_named(rt, b" bytes)", line)?;
    Ok(())
}

// Each letter is read.
fn letters(rt: &impl Print) -> io::Result<()> {
    say(rt, b"\nEach letter:\n")?;
    read(rt, b"T,G,D,0,1,4.5,10,20")?;
    read(rt, b"A,7,2010")?;
    read(rt, b"S,7,1,10.04,D,2008")?;
    read(rt, b"C,7,1,2011")?;
    read(rt, b"P,7,1,D,2011")?;
    read_named(rt, b"R,7,2010\\n", b"R,7,2010\n")?;
    read(rt, b"W,7")?;
    Ok(())
}

// The example of 4.6: stands of 50.15 and 49.17 ha are one sub-area, and are added before they are entered and rounded.
fn sub_areas(rt: &impl Print) -> io::Result<()> {
    say(
        rt,
        b"\nSub-areas of the guide's section 4.6, 50.15 and 49.17 ha of one age, 91.31 ha of another:\n",
    )?;
    read(rt, b"S,1,1,99.32,P1,1998")?;
    read(rt, b"S,1,2,91.31,P1,2003")?;
    Ok(())
}

// A wrong form is 1, whatever else is wrong.
fn forms(rt: &impl Print) -> io::Result<()> {
    say(rt, b"\nWrong forms:\n")?;
    read(rt, b"X,7")?;
    read(rt, b"A,7")?;
    read(rt, b"A,7,2010,")?;
    read(rt, b"A,,2010")?;
    read(rt, b"A,07,2010")?;
    read_named(rt, b"A,7,2010\\r", b"A,7,2010\r")?;
    read(rt, b"a,7,2010")?;
    Ok(())
}

// CR and NUL are part of their field; a blank line and a byte 10 inside are 1.
fn more_forms(rt: &impl Print) -> io::Result<()> {
    say(rt, b"\nMore wrong forms:\n")?;
    read_named(rt, b"(no bytes)", b"")?;
    read_named(rt, b"\\n", b"\n")?;
    read_named(rt, b"A,7\\0,2010", b"A,7\x00,2010")?;
    read_named(rt, b"A,7\\n,2010", b"A,7\n,2010")?;
    read(rt, b"T,X,D,1")?;
    read(rt, b"T,G,D")?;
    read(rt, b"T,G,D,1.05")?;
    Ok(())
}

// A value that is well formed and out of range has its own number, the smallest first.
fn ranges(rt: &impl Print) -> io::Result<()> {
    say(rt, b"\nValues out of range:\n")?;
    read(rt, b"A,0,2010")?;
    read(rt, b"C,1,100,2007")?;
    read(rt, b"S,1,1,5,Q,2010")?;
    read(rt, b"P,1,1,B,2010")?;
    read(rt, b"S,1,1,0.9999,D,2010")?;
    read(rt, b"S,1,1,10000.0001,D,0")?;
    Ok(())
}

// Years and columns of tables.
fn more_ranges(rt: &impl Print) -> io::Result<()> {
    say(rt, b"\nYears and columns:\n")?;
    read(rt, b"A,1,2007")?;
    read(rt, b"S,1,1,9999.95,B,2010")?;
    read(rt, b"S,1,1,1,D,0")?;
    read(rt, b"T,G,D,3000.1")?;
    read(rt, b"T,G,P1,1")?;
    read(rt, b"S,1,1,1234567,D,2010")?;
    Ok(())
}

// A number of 500 digits is well formed.
fn long_number(rt: &impl Print) -> io::Result<()> {
    let mut line = [b'9'; 507];
    line[0] = b'A';
    line[1] = b',';
    line[502] = b',';
    line[503] = b'2';
    line[504] = b'0';
    line[505] = b'1';
    line[506] = b'0';
    read_long(rt, b"A, an area of 500 digits, 2010", &line)?;
    Ok(())
}

// 1024 bytes besides the end pass, and 1025 do not.
fn longest_line(rt: &impl Print) -> io::Result<()> {
    let mut line = [b'1'; 1025];
    line[0] = b'W';
    line[1] = b',';
    line[1024] = b'\n';
    read_long(rt, b"W, an area of 1022 digits, \\n", &line)?;
    Ok(())
}

fn line_too_long(rt: &impl Print) -> io::Result<()> {
    let mut line = [b'1'; 1026];
    line[0] = b'W';
    line[1] = b',';
    line[1025] = b'\n';
    read_long(rt, b"W, an area of 1023 digits, \\n", &line)?;
    Ok(())
}

// 102 cells are too many.
fn long_lines(rt: &impl Print) -> io::Result<()> {
    say(rt, b"\nLong lines:\n")?;
    long_number(rt)?;
    longest_line(rt)?;
    line_too_long(rt)?;
    read_long(
        rt,
        b"T,G,D and 101 cells",
        b"T,G,D,1,1,1,1,1,1,1,1,1,1,1,1,1,1,1,1,1,1,1,1,1,1,1,1,1,1,1,1,1,1,1,1,1,1,1,1,1,1,1,1,1,1,1,1,1,1,1,1,1,1,1,1,1,1,1,1,1,1,1,1,1,1,1,1,1,1,1,1,1,1,1,1,1,1,1,1,1,1,1,1,1,1,1,1,1,1,1,1,1,1,1,1,1,1,1,1,1,1,1,1,1",
    )?;
    read_long(
        rt,
        b"T,G,D and 102 cells",
        b"T,G,D,1,1,1,1,1,1,1,1,1,1,1,1,1,1,1,1,1,1,1,1,1,1,1,1,1,1,1,1,1,1,1,1,1,1,1,1,1,1,1,1,1,1,1,1,1,1,1,1,1,1,1,1,1,1,1,1,1,1,1,1,1,1,1,1,1,1,1,1,1,1,1,1,1,1,1,1,1,1,1,1,1,1,1,1,1,1,1,1,1,1,1,1,1,1,1,1,1,1,1,1,1,1",
    )?;
    Ok(())
}

pub(crate) fn print_all(rt: &impl Print) -> io::Result<()> {
    letters(rt)?;
    sub_areas(rt)?;
    forms(rt)?;
    more_forms(rt)?;
    ranges(rt)?;
    more_ranges(rt)?;
    long_lines(rt)?;
    Ok(())
}
