// The column consulted, the look-up of a cell by age, and the decay of residue.
#![tactic(auto)]

ghost use Rattle.std.specs.Prelude.{◌≡◌};
ghost use Rattle.schedules.specs.{Kind, listed};
ghost use Rattle.rates.specs.{own_number, column_of, first_age, cell_at, rate_six, rate_four, share_after};

use forest::Forest;
use schedules::{Kind, Place};
use units::Rate;

// The tenths of a residue that are left, by the years since the clearing.
#[tactic(auto, using(crate::proofs::Decay::ten_less))]
pub fn share(years: u16) -> u8
    ensures { result ≡ share_after years }
{
    if years <= 10 {
        return 10 - years as u8;
    }
    0
}

// The participant's stock column of a type; 10 is none.
fn own_stock(forest: Forest) -> usize
    ensures { result ≡ own_number Kind.Stock forest }
{
    match forest {
        Forest::Bare => 10,
        Forest::Radiata(_) => 0,
        Forest::DouglasFir => 1,
        Forest::ExoticSoftwoods => 2,
        Forest::ExoticHardwoods => 3,
        Forest::Indigenous => 4,
    }
}

fn own_number(kind: Kind, forest: Forest) -> usize
    ensures { result ≡ own_number kind forest }
{
    let stock = own_stock(forest);
    match kind {
        Kind::Stock => stock,
        Kind::Residue => 5 + stock,
    }
}

// The cells of the column consulted: a part of the participant's table or, where that column has none, of the default one.
fn column<'a>(own: &'a [u16], default: &'a [u16], number: usize, place: Place) -> &'a [u16]
    ensures { result.now ≡ (column_of own.now default.now number place).cells }
{
    if table_parts::column_length(own, number) == 0 {
        return table_parts::part(default, place.start, place.len);
    }
    table_lent::column(own, number)
}

// The first age of the column consulted.
fn first_age(own: &[u16], number: usize, place: Place) -> usize
    ensures { result ≡ first_age own.now number place }
{
    if table_parts::column_length(own, number) != 0 {
        return 0;
    }
    place.first
}

// The cell of a column at an age.
fn cell_at(cells: &[u16], first: usize, age: u16) -> u16
    ensures { result ≡ cell_at (listed first cells.now) age }
{
    let age = age as usize;
    if age < first {
        return 0;
    }
    if cells.len() == 0 {
        return 0;
    }
    let i = age - first;
    if i < cells.len() {
        return cells[i];
    }
    cells[cells.len() - 1]
}

// The rate of post-1989 forest land, none on bare land: the participant's table and the cells of Schedule 6 are lent.
#[tactic(auto, unfolding(crate::specs::Rates::rate_six, crate::specs::Rates::cell_at, crate::specs::Rates::consulted))]
pub fn rate_six<'a>(
    own: &'a [u16],
    default: &'a [u16],
    kind: Kind,
    forest: Forest,
    age: u16,
) -> Rate
    ensures { result ≡ rate_six own.now default.now kind forest age }
{
    if let Forest::Bare = forest {
        return Rate(0);
    }
    let number = own_number(kind, forest);
    let place = schedules::place_six(kind, forest);
    let cells = column(own, default, number, place);
    let first = first_age(own, number, place);
    Rate(cell_at(cells, first, age))
}

// The rate of pre-1990 forest land: the cells of Schedule 4 are lent.
#[tactic(auto, unfolding(crate::specs::Rates::rate_four, crate::specs::Rates::cell_at))]
pub fn rate_four(cells: &[u16], forest: Forest, age: u16) -> Rate
    ensures { result ≡ rate_four cells.now forest age }
{
    let place = schedules::place_four(forest);
    let column = table_parts::part(cells, place.start, place.len);
    Rate(cell_at(column, place.first, age))
}
