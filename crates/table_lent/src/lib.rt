// A participant's table as it is lent, its cells together with the length of each column, and a column's cells out of it.
#![tactic(auto)]

ghost use Rattle.std.specs.Prelude.{◌≡◌};
ghost use Rattle.table_parts.specs.{cells_of};
ghost use Rattle.table_lent.specs.{lent_column, lent_lengths, own_column};

use table_parts::COLUMNS;

#[derive(Clone, Copy)]
pub struct LentTable<'a> {
    pub cells: &'a [u16],
    pub lengths: [u16; COLUMNS],
}

fn lengths_of(table: &[u16]) -> [u16; COLUMNS]
    ensures { result ≡ lent_lengths table.now }
{
    match table.first_chunk::<COLUMNS>() {
        Some(lengths) => *lengths,
        None => [0; COLUMNS],
    }
}

fn cells_of(table: &[u16]) -> &[u16]
    ensures { result.now ≡ cells_of table.now }
{
    table_parts::part(table, COLUMNS, table.len())
}

// A list of less than ten numbers is lent with ten lengths of 0 and no cells.
fn lend<'a>(table: &'a [u16]) -> LentTable<'a>
    ensures { (result.cells.now ≡ cells_of table.now) × (result.lengths ≡ lent_lengths table.now) }
{
    LentTable {
        cells: cells_of(table),
        lengths: lengths_of(table),
    }
}

#[tactic(auto, unfolding(crate::specs::Lent::lent_column))]
fn column_in(cells: &[u16], lengths: [u16; COLUMNS], number: usize) -> &[u16]
    ensures { result.now ≡ lent_column cells.now lengths number }
{
    if COLUMNS <= number {
        return &cells[0..0];
    }
    let start = table_parts::cells_before(&lengths, number);
    table_parts::part(cells, start, lengths[number] as usize)
}

// The cells of a lent table's column by its number: the table is taken apart.
fn column_of<'a>(table: LentTable<'a>, number: usize) -> &'a [u16]
    ensures { result.now ≡ lent_column table.entry.cells.now table.entry.lengths number }
{
    column_in(table.cells, table.lengths, number)
}

// The cells of a column by its number.
pub fn column(table: &[u16], number: usize) -> &[u16]
    ensures { result.now ≡ own_column table.now number }
{
    column_of(lend(table), number)
}
