// The default tables: Schedules 4 and 6 of the guide's Appendix 2, and the place of each column.
#![tactic(auto)]

ghost use Rattle.std.specs.Prelude.{◌≡◌};
ghost use Rattle.schedules.specs.{schedule4, schedule6, place_four, place_six};

use forest::Forest;

mod cells;

// What a column lists: the carbon stock of trees, or the residue of cleared trees.
#[derive(Clone, Copy)]
pub enum Kind {
    Stock,
    Residue,
}

// Where a column stands among a schedule's cells, and its first listed age.
#[derive(Clone, Copy)]
pub struct Place {
    pub start: usize,
    pub len: usize,
    pub first: usize,
}

// The cells of Schedule 4, column after column.
pub fn schedule_four() -> [u16; 561]
    ensures { result ≡ schedule4 }
{
    cells::SCHEDULE_FOUR
}

// The cells of Schedule 6, the stock columns and then the residue columns.
pub fn schedule_six() -> [u16; 1287]
    ensures { result ≡ schedule6 }
{
    cells::SCHEDULE_SIX
}

pub fn place_four(forest: Forest) -> Place
    ensures { result ≡ place_four forest }
{
    let k = forest::order(forest);
    cells::PLACES_FOUR[k]
}

pub fn place_six(kind: Kind, forest: Forest) -> Place
    ensures { result ≡ place_six kind forest }
{
    match kind {
        Kind::Stock => cells::stock_place(forest),
        Kind::Residue => cells::residue_place(forest),
    }
}
