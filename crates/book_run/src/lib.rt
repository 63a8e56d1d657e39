// Runs the lines of a book, on one holding and one table, and puts what each prints, or the rows of its accepted S entries.
#![tactic(auto)]

ghost use Rattle.std.specs.Prelude.{◌≡◌, ◌≤◌, length, take};
ghost use Rattle.table.specs.{longest_table};
ghost use Rattle.book_reached.specs.{may_run_from};
ghost use Rattle.text.specs.{Wrote};
ghost use Rattle.holding.specs.{Holding, numbers_in};
ghost use Rattle.step_outcome.specs.{answered, placed};
ghost use Rattle.step.specs.{applied};
ghost use Rattle.book_listing.specs.{start, lines_run, column_taken};
ghost use Rattle.sheet_write.specs.{sheet_text};
ghost use Rattle.book_export.specs.{exported_for, exported_from};
ghost use Rattle.book_run.specs.{refusal_in, Turn, RunsIf};

use book_listing::LONGEST_BOOK;
use book_reached::Reached;
use holding::{Area, MOST_AREAS};
use holding_look::Looked;
use line_entry::{AreaAct, Entry, Parsed};
use refusals::{Refusal, Verdict};
use step_outcome::{Outcome, Report};
use table::LONGEST_TABLE;

// Why a line is no entry.
fn refusal_in(parsed: Parsed) -> Refusal
    ensures { result ≡ refusal_in parsed }
{
    match parsed {
        Err(refusal) => refusal,
        Ok(_) => Refusal::Form,
    }
}

// What a T line comes to, where so many areas stand: none of them changes.
fn column_outcome(verdict: Verdict, areas: usize) -> Outcome
    ensures { result ≡ answered verdict (column_taken areas) }
{
    let count = match verdict {
        Err(_) => 0,
        Ok(()) => areas,
    };
    let area = holding::empty_area();
    Outcome {
        verdict,
        report: Report::Nothing,
        place: None,
        count,
        area,
    }
}

// What a line comes to, as it was read, on the area that was looked up for it. An accepted T line leaves the longer table, and any other line leaves the
// table as it was.
fn take_line(
    table: &mut [u16; LONGEST_TABLE],
    count: &mut usize,
    default: &[u16],
    looked: Looked,
    line: &[u8],
    parsed: Parsed,
) -> Outcome
    requires { (count.old ≤ longest_table) × (length table.old ≡ longest_table) }
    ensures { Turn (take count.old table.old) default.now looked line.now parsed result table.new count.new }
{
    let Ok(entry) = parsed else {
        return step_outcome::turned(refusal_in(parsed));
    };
    let Entry::On(on) = entry else {
        let verdict = book_column::take_column(table, count, looked.count, line);
        return column_outcome(verdict, looked.count);
    };
    let own = &table[..];
    let act = on.act;
    step::apply_to(&own[0..*count], default, looked, act)
}

// Sets the area that an outcome leaves at its place, and its number among the numbers; where it has no place, nothing changes.
fn place(
    areas: &mut [Area; MOST_AREAS],
    numbers: &mut [u16; MOST_AREAS],
    standing: &mut usize,
    outcome: &Outcome,
)
    requires { numbers.old ≡ numbers_in areas.old }
    ensures areas_after { record { count = standing.new; areas = areas.new } ≡ placed (record { count = standing.old; areas = areas.old }) outcome.now }
    ensures numbers_after { numbers.new ≡ numbers_in areas.new }
{
    if let Some(k) = outcome.place {
        if k < MOST_AREAS {
            areas[k] = outcome.area;
            numbers[k] = outcome.area.number;
        }
        *standing = outcome.count;
    }
}

// Takes an act on the area that it names, among areas of which so many stand, with their numbers beside them; the answer is the verdict.
fn take_act(
    own: &[u16],
    default: &[u16],
    areas: &mut [Area; MOST_AREAS],
    numbers: &mut [u16; MOST_AREAS],
    standing: &mut usize,
    on: AreaAct,
) -> Verdict
    requires { numbers.old ≡ numbers_in areas.old }
    ensures value { result ≡ (applied own.now default.now (record { count = standing.old; areas = areas.old }) on).verdict }
    ensures areas_after { let holding : Holding = record { count = standing.old; areas = areas.old }
        in record { count = standing.new; areas = areas.new } ≡ placed holding (applied own.now default.now holding on) }
    ensures numbers_after { numbers.new ≡ numbers_in areas.new }
{
    let names = book_find::find(numbers, *standing, Ok(Entry::On(on)));
    let found = names.found;
    let mut looked = Looked {
        number: names.number,
        count: *standing,
        found,
        area: holding::empty_area(),
    };
    if let Some(k) = found {
        if k < MOST_AREAS {
            looked.area = areas[k];
        }
    }
    let act = on.act;
    let outcome = step::apply_to(own, default, looked, act);
    place(areas, numbers, standing, &outcome);
    outcome.verdict
}

// Puts the row of a line, as it was read and by its verdict, where it is an accepted S entry; the answer is the place after what was put.
fn put_row(out: &mut [u8], at: usize, line: &[u8], parsed: Parsed, verdict: Verdict) -> usize
    ensures { Wrote out.old at (sheet_text (exported_for verdict parsed line.now)) out.new result }
{
    if book_export::is_exported(parsed, verdict) {
        return sheet_write::put_row(out, at, line);
    }
    at
}

// What lines that are run come to: the place after what was put, the place in the book of the line that comes next, and what the lines before it have
// come to.
#[derive(Clone, Copy)]
pub struct Part {
    pub count: usize,
    pub next: usize,
    pub reached: Reached,
}

// Runs the lines of a book from a place on, so many at most, and puts what each prints, from `at` on; where the book cannot have come so far, nothing
// is run. The numbers of the areas are kept beside them, so that no line is given the holding.
pub fn put_lines(
    book: &[u8],
    next: usize,
    reached: Reached,
    most: usize,
    out: &mut [u8],
    at: usize,
) -> Part
    ensures { RunsIf (may_run_from book.now next reached) book.now next reached most out.old at out.new result }
{
    if !book_reached::may_run(
        book.len(),
        next,
        reached.count,
        reached.accepted,
        reached.refused,
    ) {
        return Part {
            count: at,
            next,
            reached,
        };
    }
    let default = schedules::schedule_six();
    let none = holding::empty_area();
    let mut holding = reached.holding;
    let mut numbers = holding::numbers_of(holding);
    let mut table = reached.table;
    let mut count = reached.count;
    let mut accepted = reached.accepted;
    let mut refused = reached.refused;
    let mut left = most;
    let mut at = at;
    let mut i = next;
    // The place reached is handed back, to go on from: `RunOf` speaks of it, and an iterator over lines would lose it.
    while (i < book.len()) & (0 < left) {
        let end = text::end_of(book, i, b'\n');
        let parsed = line::parse(&book[i..end]);
        let names = book_find::find(&numbers, holding.count, parsed);
        let found = names.found;
        let mut named = none;
        if let Some(k) = found {
            if k < MOST_AREAS {
                named = holding.areas[k];
            }
        }
        let looked = Looked {
            number: names.number,
            count: holding.count,
            found,
            area: named,
        };
        let outcome = take_line(
            &mut table,
            &mut count,
            &default,
            looked,
            &book[i..end],
            parsed,
        );
        at = book_listing::put_line(out, at, accepted + refused + 1, outcome);
        let verdict = outcome.verdict;
        let taken = book_listing::counted(verdict);
        accepted += taken;
        refused += 1 - taken;
        place(
            &mut holding.areas,
            &mut numbers,
            &mut holding.count,
            &outcome,
        );
        i = end + 1;
        left -= 1;
    }
    let reached = Reached {
        holding,
        table,
        count,
        accepted,
        refused,
    };
    Part {
        count: at,
        next: i,
        reached,
    }
}

// Puts the row of each accepted S entry of a book, from `at` on, and none where the book is too long; the answer is the place after them. The areas stand
// here alone and are lent to what takes an act, since a holding is most of what the stack takes.
pub fn put_rows(book: &[u8], out: &mut [u8], at: usize) -> usize
    ensures { Wrote out.old at (sheet_text (exported_from start (lines_run book.now))) out.new result }
{
    if LONGEST_BOOK < book.len() {
        return at;
    }
    let default = schedules::schedule_six();
    let mut areas = [holding::empty_area(); MOST_AREAS];
    let mut numbers = [0u16; MOST_AREAS];
    let mut standing: usize = 0;
    let mut table = [0u16; LONGEST_TABLE];
    let mut count: usize = 0;
    let mut at = at;
    let mut i: usize = 0;
    while i < book.len() {
        let end = text::end_of(book, i, b'\n');
        let parsed = line::parse(&book[i..end]);
        // A refused line changes nothing, and a row is put for an act alone.
        if let Ok(entry) = parsed {
            match entry {
                Entry::Column { column: _ } => {
                    let _ = book_column::take_column(
                        &mut table,
                        &mut count,
                        standing,
                        &book[i..end],
                    );
                }
                Entry::On(on) => {
                    let own = &table[..];
                    let verdict = take_act(
                        &own[0..count],
                        &default,
                        &mut areas,
                        &mut numbers,
                        &mut standing,
                        on,
                    );
                    at = put_row(out, at, &book[i..end], parsed, verdict);
                }
            }
        }
        i = end + 1;
    }
    at
}
