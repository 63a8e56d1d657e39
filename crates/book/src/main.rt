// Lists the book on standard input, a part at a time.
#![tactic(auto)]

use book_parts::PART_ROOM;
use std::io;

// A byte more than the longest book has, to see that a book is longer.
const ROOM_FOR_BOOK: usize = book_listing::LONGEST_BOOK + 1;

fn room_for_book() -> [u8; ROOM_FOR_BOOK] {
    [0u8; ROOM_FOR_BOOK]
}

fn room_for_part() -> [u8; PART_ROOM] {
    [0u8; PART_ROOM]
}

// Writes a part of the listing of a book after the other, until none of its lines is left.
fn print_listing(rt: &impl Print, book: &[u8]) -> io::Result<()> {
    let mut out = room_for_part();
    let mut part = book_parts::put_part(book, 0, book_reached::nothing_reached(), &mut out);
    // A part says where the next one starts: its place is kept, and an iterator would only hide it.
    while part.next < book.len() {
        rt.write_all(&out[..part.count])?;
        part = book_parts::put_part(book, part.next, part.reached, &mut out);
    }
    rt.write_all(&out[..part.count])
}

fn main(rt: HostRuntime) -> io::Result<()> {
    let mut book = room_for_book();
    let length = input::read_full(&mut rt.reader(), &mut book)?;
    print_listing(&rt, &book[..length])
}
