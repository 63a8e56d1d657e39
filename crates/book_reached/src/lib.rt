// What the lines of a book have come to, and whether a book can have come so far.
#![tactic(auto)]

ghost use Rattle.std.specs.Prelude.{◌≡◌};
ghost use Rattle.book_reached.specs.{may_run, nothing_reached};

use book_listing::LONGEST_BOOK;
use holding::Holding;
use table::LONGEST_TABLE;

// What a book's lines have come to: the holding, the participant's table at the front of `table`, and how many lines were accepted and refused.
#[derive(Clone, Copy)]
pub struct Reached {
    pub holding: Holding,
    pub table: [u16; LONGEST_TABLE],
    pub count: usize,
    pub accepted: u64,
    pub refused: u64,
}

// Before the first line.
pub fn nothing_reached() -> Reached
    ensures { result ≡ nothing_reached }
{
    let holding = holding::empty_holding();
    Reached {
        holding,
        table: [0u16; LONGEST_TABLE],
        count: 0,
        accepted: 0,
        refused: 0,
    }
}

// Whether a book of so many bytes can have come so far: no more lines were counted than bytes were run.
pub fn may_run(length: usize, next: usize, count: usize, accepted: u64, refused: u64) -> bool
    ensures { result ≡ may_run length next count accepted refused }
{
    let most = next as u64;
    (length <= LONGEST_BOOK)
        & (next <= LONGEST_BOOK + 1)
        & (count <= LONGEST_TABLE)
        & (accepted <= most)
        & (refused <= most)
}
