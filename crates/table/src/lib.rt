// The participant's table, judged.
#![tactic(auto)]

ghost use Rattle.std.specs.Prelude.{◌≡◌};
ghost use Rattle.laws.specs.{each_at_most};
ghost use Rattle.table.specs.{has_columns, judged};

use refusals::{Refusal, Verdict};
use table_parts::COLUMNS;

pub const LONGEST_COLUMN: u16 = 101;

pub const CELL_CEILING: u16 = 30000;

// Ten lengths, and ten columns of the greatest length.
pub const LONGEST_TABLE: usize = COLUMNS + COLUMNS * LONGEST_COLUMN as usize;

// Whether no number is over the ceiling.
pub fn each_at_most(numbers: &[u16], ceiling: u16) -> bool
    ensures { result ≡ each_at_most ceiling numbers.now }
{
    numbers.iter().all(|number| *number <= ceiling)
}

// Ten lengths, as many cells as they say, and each within its bound.
pub fn has_columns(table: &[u16]) -> bool
    ensures { result ≡ has_columns table.now }
{
    if table.len() < COLUMNS {
        return false;
    }
    let lengths = &table[..COLUMNS];
    let cells = &table[COLUMNS..];
    let whole = cells.len() == table_parts::cells_before(table, COLUMNS);
    let short = each_at_most(lengths, LONGEST_COLUMN);
    let low = each_at_most(cells, CELL_CEILING);
    whole & short & low
}

// Whether a list of numbers is a participant's table, or the empty list, which is none.
pub fn judge(table: &[u16]) -> Verdict
    ensures { result ≡ judged table.now }
{
    let none = table.is_empty();
    let kept = has_columns(table);
    refusals::refuse_if(!(none | kept), Refusal::TableColumn)
}
