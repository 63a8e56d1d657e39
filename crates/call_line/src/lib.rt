// The call of a recorder's own program: its verdict, and what it writes.
#![tactic(auto)]

ghost use Rattle.std.specs.Prelude.{◌≡◌, length, take, true};
ghost use Rattle.refusals.specs.{written};
ghost use Rattle.line.specs.{is_column_line};
ghost use Rattle.table.specs.{longest_table};
ghost use Rattle.table_extend.specs.{begun, longer, extensible};
ghost use Rattle.call_output.specs.{table_bytes, Gives};
ghost use Rattle.call_column.specs.{cells_verdict};
ghost use Rattle.call_answer.specs.{call_verdict, call_bytes, call_weighed, call_output};

use line_entry::Entry;
use refusals::Written;
use table::LONGEST_TABLE;

// The most cells of a column.
const MOST_CELLS: usize = table::LONGEST_COLUMN as usize;

// Extends in place the table that is the first `count` of the numbers, and writes it to the front of `out`: how many bytes, or why nothing is written.
fn write_longer(
    numbers: &mut [u16; LONGEST_TABLE],
    count: usize,
    column: usize,
    cells: &[u16],
    out: &mut [u8],
) -> Written
    ensures { Gives (extensible (begun (take count numbers.old)) column cells.now longest_table) (table_bytes (longer (begun (take count numbers.old)) column cells.now)) out.old result out.new }
{
    let many = table_extend::extend(numbers, count, column, cells)?;
    let grown = &numbers[..];
    call_output::write_table(&grown[0..many], out)
}

// The same, where the statement and the areas that stand refuse nothing.
fn take_cells(
    statement: &[u8],
    numbers: &mut [u16; LONGEST_TABLE],
    count: usize,
    column: usize,
    cells: &[u16],
    out: &mut [u8],
) -> Written
    ensures { Gives (cells_verdict (take count numbers.old) statement.now column cells.now) (table_bytes (longer (begun (take count numbers.old)) column cells.now)) out.old result out.new }
{
    call_column::judge_cells(statement, numbers, count, column, cells)?;
    write_longer(numbers, count, column, cells, out)
}

// A T line: the table longer by its column, in the room into which it is read. The line is judged where its cells are read, and the table where it is
// extended.
fn take_column(statement: &[u8], table: &[u8], line: &[u8], out: &mut [u8]) -> Written
    requires { is_column_line line.now ≡ true }
    ensures { Gives (call_verdict statement.now table.now line.now) (call_bytes statement.now table.now line.now) out.old result out.new }
{
    let mut cells = [0u16; MOST_CELLS];
    let read = line::read_column(line, &mut cells);
    read.verdict?;
    let mut numbers = [0u16; LONGEST_TABLE];
    let count = table_bytes::decode(table, &mut numbers)?;
    take_cells(
        statement,
        &mut numbers,
        count,
        read.column,
        &cells[0..read.count],
        out,
    )
}

// Takes a line by a statement and a table, and writes to the front of `out` what they become: how many bytes, or why nothing is written. Room for a
// table is laid out only where there is one, or where it grows; it is judged with the act or the column that it serves.
pub fn call(statement: &[u8], table: &[u8], line: &[u8], out: &mut [u8]) -> Written
    ensures value { result ≡ written (call_weighed statement.now table.now line.now (length out.old)) (call_bytes statement.now table.now line.now) }
    ensures out_after { out.new ≡ call_output statement.now table.now line.now out.old }
{
    if line::is_column(line) {
        return take_column(statement, table, line, out);
    }
    // No other line is read as a column.
    let Entry::On(on) = line::parse(line)? else {
        return take_column(statement, table, line, out);
    };
    if table.len() == 0 {
        let none = [0u16; 1];
        return call_step::take_step(statement, &none[0..0], on, out);
    }
    let mut numbers = [0u16; LONGEST_TABLE];
    let count = table_bytes::decode(table, &mut numbers)?;
    call_step::take_step(statement, &numbers[0..count], on, out)
}
