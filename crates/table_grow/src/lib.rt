// The participant's table longer by a T line's column, in place.
#![tactic(auto)]

ghost use Rattle.std.specs.Prelude.{◌≡◌, take, leb};
ghost use Rattle.refusals.specs.{weighed, written, buffer_after};
ghost use Rattle.table.specs.{longest_table};
ghost use Rattle.table_extend.specs.{begun, longer, extensible};
ghost use Rattle.table_grow.specs.{longer_by, growable};

use refusals::{Refusal, Verdict, Written};
use table::LONGEST_TABLE;

const MOST_CELLS: usize = table::LONGEST_COLUMN as usize;

// The table longer by a column of given cells. Where areas stand nothing is written, and the table's own refusal has the smaller number.
fn grow_by(
    numbers: &mut [u16; LONGEST_TABLE],
    count: usize,
    areas: usize,
    column: usize,
    cells: &[u16],
) -> Written
    ensures value { result ≡ written (weighed (extensible (begun (take count numbers.old)) column cells.now longest_table) (leb 1 areas) Refusal.TableAfterArea) (longer (begun (take count numbers.old)) column cells.now) }
    ensures numbers_after { numbers.new ≡ buffer_after (weighed (extensible (begun (take count numbers.old)) column cells.now longest_table) (leb 1 areas) Refusal.TableAfterArea) (longer (begun (take count numbers.old)) column cells.now) numbers.old }
{
    if areas == 0 {
        return table_extend::extend(numbers, count, column, cells);
    }
    table_extend::judge(numbers, count, column, cells)?;
    Err(Refusal::TableAfterArea)
}

// Extends by a T line the table that is the first `count` of the numbers, where so many areas stand: how many numbers it has then, or why it is left.
pub fn grow(numbers: &mut [u16; LONGEST_TABLE], count: usize, areas: usize, line: &[u8]) -> Written
    ensures value { result ≡ written (growable (take count numbers.old) areas line.now) (longer_by (take count numbers.old) line.now) }
    ensures numbers_after { numbers.new ≡ buffer_after (growable (take count numbers.old) areas line.now) (longer_by (take count numbers.old) line.now) numbers.old }
{
    let mut cells = [0u16; MOST_CELLS];
    let read = line::read_column(line, &mut cells);
    read.verdict?;
    grow_by(numbers, count, areas, read.column, &cells[..read.count])
}
