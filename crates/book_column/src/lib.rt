// A T line's turn in a book: the table longer in place.
#![tactic(auto)]

ghost use Rattle.std.specs.Prelude.{◌≡◌, take};
ghost use Rattle.table_grow.specs.{growable};
ghost use Rattle.book_column.specs.{column_numbers, column_count};

use refusals::Verdict;
use table::LONGEST_TABLE;

// Takes a line as a T line, where so many areas stand: it extends the table in place, or says why it leaves it.
pub fn take_column(
    table: &mut [u16; LONGEST_TABLE],
    count: &mut usize,
    areas: usize,
    line: &[u8],
) -> Verdict
    ensures value { result ≡ growable (take count.old table.old) areas line.now }
    ensures table_after { table.new ≡ column_numbers table.old count.old areas line.now }
    ensures count_after { count.new ≡ column_count table.old count.old areas line.now }
{
    *count = table_grow::grow(table, *count, areas, line)?;
    Ok(())
}
