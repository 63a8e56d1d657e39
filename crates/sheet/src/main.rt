// Exports the book on standard input as a sheet.
#![tactic(auto)]

use sheet_export::ROOM;
use std::io;

// A byte more than the longest book has, to see that a book is longer.
const ROOM_FOR_BOOK: usize = book_listing::LONGEST_BOOK + 1;

fn room_for_book() -> [u8; ROOM_FOR_BOOK] {
    [0u8; ROOM_FOR_BOOK]
}

fn room_for_export() -> [u8; ROOM] {
    [0u8; ROOM]
}

fn main(rt: HostRuntime) -> io::Result<()> {
    let mut book = room_for_book();
    let length = input::read_full(&mut rt.reader(), &mut book)?;
    let mut out = room_for_export();
    let count = sheet_export::put_sheet(&book[..length], &mut out);
    rt.write_all(&out[..count])
}
