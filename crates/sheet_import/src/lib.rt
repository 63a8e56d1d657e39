// Sub-areas of a sheet added to the holding of a statement, all of them or none.
#![tactic(auto)]

ghost use Rattle.std.specs.Prelude.{◌≡◌};
ghost use Rattle.statement_field.specs.{Put};
ghost use Rattle.call_output.specs.{Gives};
ghost use Rattle.sheet_import.specs.{ReadsRow, first_text, first_width, onto_verdict, onto_bytes};

use holding::MOST_AREAS;
use holding_look::Looked;
use line_entry::{Entry, Parsed};
use refusals::{Refusal, Written};
use statement_parse::AREAS_READ;

// Room for the longest line that may be an entry, and for its end.
const LINE_ROOM: usize = line::LONGEST + 1;

// What the row at a place is read as, and the place of the next row.
#[derive(Clone, Copy)]
struct RowRead {
    parsed: Parsed,
    next: usize,
}

// Reads the row at a place as an S line: "S,", its fields joined by commas, and byte 10.
fn read_row(sheet: &[u8], at: usize) -> RowRead
    ensures { ReadsRow sheet.now at result }
{
    let mut line = [0u8; LINE_ROOM];
    let letter = text::put_byte(&mut line, 0, b'S');
    let start = text::put_byte(&mut line, letter, b',');
    let row = sheet_read::put_joined(sheet, at, &mut line, start);
    let end = text::put_byte(&mut line, row.end, b'\n');
    if LINE_ROOM < end {
        return RowRead {
            parsed: Err(Refusal::Form),
            next: row.next,
        };
    }
    RowRead {
        parsed: line::parse(&line[0..end]),
        next: row.next,
    }
}

// Puts a statement's first line.
fn put_first(out: &mut [u8], at: usize, count: usize) -> usize
    ensures { Put first_width out.old at (first_text count) out.new result }
{
    let next = statement_field::put_start(out, at, b'H');
    statement_field::put_field(out, next, count as u64, b'\n')
}

// Imports a sheet onto the holding of a statement, under a table that whoever calls has judged, and writes the new statement to the front of `out`: how many
// bytes, or why nothing is written. The areas stand here alone and are handed on one at a time, since a holding is most of what the stack takes.
pub fn import(own: &[u16], statement: &[u8], sheet: &[u8], out: &mut [u8]) -> Written
    ensures { Gives (onto_verdict own.now statement.now sheet.now) (onto_bytes own.now statement.now sheet.now) out.old result out.new }
{
    let start = statement_cursor::start(statement, 0, b'H');
    let head = statement_cursor::number(statement, start, b'\n', AREAS_READ);
    let mut count = head.value as usize;
    let mut areas = [holding::empty_area(); MOST_AREAS];
    let mut numbers = [0u16; MOST_AREAS];
    let mut kept = true;
    let mut next = head.next;
    for i in 0..count {
        let read = statement_parse::read_area(statement, next);
        let area = read.area;
        kept = kept & statement_judge::area(area);
        numbers[i] = area.number;
        areas[i] = area;
        next = read.next;
    }
    let apart = statement_distinct::numbers(&numbers[0..count]);
    if !((0 < next) & (next == statement.len()) & kept & apart) {
        return Err(Refusal::CarriedStatement);
    }
    sheet_judge::judge(sheet)?;
    let default = schedules::schedule_six();
    let mut unkept = [0u8; 1];
    let heading = read_row(sheet, 0);
    let mut looked = Looked {
        number: 0,
        count,
        found: None,
        area: holding::empty_area(),
    };
    let mut at = heading.next;
    // A row ends where its reader says, so that a place is kept and no iterator.
    while at < sheet.len() {
        let row = read_row(sheet, at);
        let parsed = row.parsed;
        let names = book_find::find(&numbers, count, parsed);
        let found = names.found;
        looked.number = names.number;
        looked.count = count;
        looked.found = found;
        looked.area = holding::empty_area();
        if let Some(k) = found {
            if k < MOST_AREAS {
                looked.area = areas[k];
            }
        }
        // No row is read as a column.
        let Entry::On(on) = parsed? else {
            return Err(Refusal::Form);
        };
        let outcome = step::apply_to(own, &default, looked, on.act);
        outcome.verdict?;
        if let Some(k) = outcome.place {
            let area = outcome.area;
            if k < MOST_AREAS {
                areas[k] = area;
                numbers[k] = area.number;
            }
            count = outcome.count;
        }
        at = row.next;
    }
    let mut need = put_first(&mut unkept, 0, count);
    let standing = count.min(MOST_AREAS);
    for j in 0..standing {
        looked.area = areas[j];
        need = statement_write::put_area(&mut unkept, need, looked.area);
    }
    if out.len() < need {
        return Err(Refusal::OutputShort);
    }
    let mut end = put_first(out, 0, count);
    for k in 0..standing {
        looked.area = areas[k];
        end = statement_write::put_area(out, end, looked.area);
    }
    Ok(end)
}
