// What the other modules print with: words, and what may follow them, on standard output.
use forest::Forest;
use refusals::Refusal;
use std::io;

pub(crate) fn say(rt: &impl Print, words: &[u8]) -> io::Result<()> {
    rt.write_all(words)
}

pub(crate) fn say_number(rt: &impl Print, words: &[u8], number: u64) -> io::Result<()> {
    say(rt, words)?;
    print!(rt; "{number}")?;
    Ok(())
}

// A number with one decimal.
pub(crate) fn say_tenths(rt: &impl Print, words: &[u8], tenths: u64) -> io::Result<()> {
    say_number(rt, words, tenths / 10)?;
    say_number(rt, b".", tenths % 10)?;
    Ok(())
}

pub(crate) fn say_forest(rt: &impl Print, words: &[u8], forest: Forest) -> io::Result<()> {
    say(rt, words)?;
    match forest {
        Forest::Bare => say(rt, b"bare land")?,
        Forest::Radiata(_) => say_number(rt, b"radiata P", forest::order(forest) as u64)?,
        Forest::DouglasFir => say(rt, b"Douglas fir")?,
        Forest::ExoticSoftwoods => say(rt, b"exotic softwoods")?,
        Forest::ExoticHardwoods => say(rt, b"exotic hardwoods")?,
        Forest::Indigenous => say(rt, b"indigenous")?,
    }
    Ok(())
}

pub(crate) fn say_refused(rt: &impl Print, refusal: Refusal) -> io::Result<()> {
    say_number(rt, b": refused ", u8::from(refusal) as u64)?;
    Ok(())
}
