// A column that a T entry adds to the participant's table.
#![tactic(auto)]

ghost use Rattle.std.specs.Prelude.{◌≡◌, ◌++◌, ◌+◌, ◌<◌, ◌≤◌, length, take, drop};
ghost use Rattle.table_parts.specs.{column_count};
ghost use Rattle.table.specs.{longest_column};
ghost use Rattle.refusals.specs.{written, buffer_after};
ghost use Rattle.table_extend.specs.{begun, is_free, longer, extensible};

use refusals::{Refusal, Verdict, Written, refuse_if};

// Whether neither the column nor a later one has cells.
fn is_free(table: &[u16], column: usize) -> bool
    ensures { result ≡ is_free table.now column }
{
    let lengths = table_parts::part(table, 0, table_parts::COLUMNS);
    let from_column = table_parts::part(lengths, column, table_parts::COLUMNS);
    table::each_at_most(from_column, 0)
}

// What refuses a column on a table that is begun.
#[tactic(auto, unfolding(crate::specs::Extension::extensible, refusals::specs::Refusals::smallest, refusals::specs::Refusals::weigh_all, refusals::specs::Refusals::weighed))]
fn judge_begun(table: &[u16], column: usize, cells: &[u16], room: usize) -> Verdict
    ensures { result ≡ extensible table.now column cells.now room }
{
    refuse_if(!table::has_columns(table), Refusal::TableColumn)?;
    refuse_if(table_parts::COLUMNS <= column, Refusal::TableColumn)?;
    refuse_if(cells.is_empty(), Refusal::TableColumn)?;
    refuse_if(
        (table::LONGEST_COLUMN as usize) < cells.len(),
        Refusal::TableColumn,
    )?;
    let low = table::each_at_most(cells, table::CELL_CEILING);
    refuse_if(!low, Refusal::TableColumn)?;
    let free = is_free(table, column);
    refuse_if(!free, Refusal::TableColumn)?;
    refuse_if(room < table.len() + cells.len(), Refusal::OutputShort)
}

// What refuses a column on the table that is the first `count` of the numbers, where there is room for as many as they are.
pub fn judge(numbers: &[u16], count: usize, column: usize, cells: &[u16]) -> Verdict
    ensures { result ≡ extensible (begun (take count numbers.now)) column cells.now (length numbers.now) }
{
    let own = table_parts::part(numbers, 0, count);
    if own.is_empty() {
        let no_columns = [0u16; table_parts::COLUMNS];
        return judge_begun(&no_columns, column, cells, numbers.len());
    }
    judge_begun(own, column, cells, numbers.len())
}

// Puts ten lengths of 0 to the front where there is no table yet: how many numbers the table has then.
#[tactic(auto, unfolding(crate::specs::Extension::begun))]
fn begin(numbers: &mut [u16], count: usize) -> usize
    requires { column_count ≤ length numbers.old }
    ensures value { result ≡ length (begun (take count numbers.old)) }
    ensures numbers_after { numbers.new ≡ begun (take count numbers.old) ++ drop (length (begun (take count numbers.old))) numbers.old }
{
    let many = table_parts::part(numbers, 0, count).len();
    if many == 0 {
        numbers[..table_parts::COLUMNS].fill(0);
        return table_parts::COLUMNS;
    }
    many
}

// Puts the longer table to the front: how many numbers it has.
fn put_longer(numbers: &mut [u16], count: usize, column: usize, cells: &[u16]) -> usize
    requires column_lt_column_count { (column < column_count) × (column_count ≤ length (begun (take count numbers.old))) }
    requires cells_len_bound { (length cells.now ≤ longest_column) × (length (begun (take count numbers.old)) + length cells.now ≤ length numbers.old) }
    ensures value { result ≡ length (longer (begun (take count numbers.old)) column cells.now) }
    ensures numbers_after { numbers.new ≡ longer (begun (take count numbers.old)) column cells.now ++ drop (length (longer (begun (take count numbers.old)) column cells.now)) numbers.old }
{
    let many = begin(numbers, count);
    numbers[column] = cells.len() as u16;
    numbers[many..many + cells.len()].copy_from_slice(cells);
    many + cells.len()
}

// Extends in place the table that is the first `count` of the numbers: how many numbers it has then, or why it is left.
pub fn extend(numbers: &mut [u16], count: usize, column: usize, cells: &[u16]) -> Written
    ensures value { result ≡ written (extensible (begun (take count numbers.old)) column cells.now (length numbers.old)) (longer (begun (take count numbers.old)) column cells.now) }
    ensures numbers_after { numbers.new ≡ buffer_after (extensible (begun (take count numbers.old)) column cells.now (length numbers.old)) (longer (begun (take count numbers.old)) column cells.now) numbers.old }
{
    judge(numbers, count, column, cells)?;
    Ok(put_longer(numbers, count, column, cells))
}
