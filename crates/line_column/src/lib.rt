// The T entry: a column of the participant's table.
#![tactic(auto)]

ghost use Rattle.std.specs.Prelude.{◌≡◌, ◌-◌, ◌≤◌, length};
ghost use Rattle.std.proofs.lemmas.List.Edits.{sets};
ghost use Rattle.text.specs.{split};
ghost use Rattle.line_entry.specs.{parsed_by};
ghost use Rattle.text_field.specs.{places_of};
ghost use Rattle.refusals.specs.{smallest, buffer_after};
ghost use Rattle.line_cells.specs.{cells_found, tenths_all};
ghost use Rattle.line_column.specs.{first_cell, cells_of, column_of, column_rule, readable, column_read};

use line_cells::Cells;
use line_entry::{Entry, Parsed};
use refusals::{Refusal, Verdict};
use text_field::Places;

// A column read out: its number, and how many cells it has; neither where the line is refused.
#[derive(Clone, Copy)]
pub struct ReadColumn {
    pub verdict: Verdict,
    pub column: usize,
    pub count: usize,
}

const FIRST_CELL: usize = 3;

const MOST_CELLS: usize = table::LONGEST_COLUMN as usize;

// How many fields stand behind the type.
fn cell_count(count: usize) -> usize
    ensures { result ≡ count - first_cell }
{
    count.saturating_sub(FIRST_CELL)
}

fn all_cells(line: &[u8], places: Places, cells: &mut [u16]) -> Cells
    requires { places ≡ places_of (split line.now) }
    ensures value { result ≡ cells_found (cells_of (split line.now)) }
    ensures cells_after { cells.new ≡ sets cells.old 0 (tenths_all (cells_of (split line.now))) }
{
    let count = places.count;
    if count <= FIRST_CELL {
        return Cells {
            malformed: false,
            over: false,
        };
    }
    let starts = places.starts;
    let first = starts[FIRST_CELL];
    line_cells::scan_cells(&line[first..], cells)
}

// The fields judged, and what they say of the column whatever the verdict; the cells are kept, while there is room.
fn judge(line: &[u8], places: Places, kept: &mut [u16]) -> ReadColumn
    requires { places ≡ places_of (split line.now) }
    ensures verdict_value { (result.verdict ≡ smallest (column_rule (split line.now)).cases) × (result.column ≡ column_of (split line.now)) × (result.count ≡ length (cells_of (split line.now))) }
    ensures kept_after { kept.new ≡ sets kept.old 0 (tenths_all (cells_of (split line.now))) }
{
    let fields = places.count;
    let count = cell_count(fields);
    let first = line_entry::letter_in(text_field::field(line, places, 0));
    let kind = line_entry::letter_in(text_field::field(line, places, 1));
    let named = line_entry::letter_in(text_field::field(line, places, 2));
    let cells = all_cells(line, places, kept);
    let v = refusals::weigh(Ok(()), first != b'T', Refusal::Form);
    let v = refusals::weigh(v, fields <= FIRST_CELL, Refusal::Form);
    let v = refusals::weigh(v, !table_parts::is_kind(kind), Refusal::Form);
    let v = refusals::weigh(v, cells.malformed, Refusal::Form);
    let v = refusals::weigh(v, !table_parts::is_type(named), Refusal::ForestType);
    let v = refusals::weigh(v, MOST_CELLS < count, Refusal::TableColumn);
    let verdict = refusals::weigh(v, cells.over, Refusal::TableColumn);
    let column = table_parts::column_number(kind, named);
    ReadColumn {
        verdict,
        column,
        count,
    }
}

// T,kind,type,cells
pub fn column_entry(line: &[u8]) -> Parsed
    ensures { result ≡ parsed_by (column_rule (split line.now)) }
{
    let places = text_field::scan(line);
    let mut unkept = [0u16; 1];
    let judged = judge(line, places, &mut unkept);
    judged.verdict?;
    Ok(Entry::Column {
        column: judged.column,
    })
}

// Reads the column of a T line's fields, and its cells into lent numbers: all of them, or none where the line is refused.
pub fn read_column(line: &[u8], cells: &mut [u16]) -> ReadColumn
    ensures value { result ≡ column_read (readable (smallest (column_rule (split line.now)).cases) (split line.now) (length cells.old)) (split line.now) }
    ensures cells_after { cells.new ≡ buffer_after (readable (smallest (column_rule (split line.now)).cases) (split line.now) (length cells.old)) (tenths_all (cells_of (split line.now))) cells.old }
{
    let places = text_field::scan(line);
    let mut kept = [0u16; MOST_CELLS];
    let judged = judge(line, places, &mut kept);
    let column = judged.column;
    let count = judged.count;
    let own = judged.verdict;
    let verdict = refusals::weigh(own, cells.len() < count, Refusal::OutputShort);
    match verdict {
        Err(refusal) => ReadColumn {
            verdict: Err(refusal),
            column: 0,
            count: 0,
        },
        Ok(()) => {
            cells[..count].copy_from_slice(&kept[..count]);
            ReadColumn {
                verdict: Ok(()),
                column,
                count,
            }
        }
    }
}
