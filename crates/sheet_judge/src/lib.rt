// What refuses a sheet before any of its rows is taken.
#![tactic(auto)]

ghost use Rattle.std.specs.Prelude.{◌≡◌, drop};
ghost use Rattle.laws.specs.{every};
ghost use Rattle.text.specs.{join};
ghost use Rattle.sheet_read.specs.{rows_of};
ghost use Rattle.sheet_judge.specs.{heading_row, five_fields, same_bytes, regular, sheet_verdict};

use refusals::{Refusal, Verdict, refuse_if};

// How many fields a row has, and how many bytes the heading.
const FIELDS: usize = 5;

const HEADING_WIDTH: usize = 30;

// Whether bytes are the heading's fields, joined.
fn is_heading(bytes: &[u8; HEADING_WIDTH]) -> bool
    ensures { result ≡ same_bytes bytes.now (join heading_row) }
{
    bytes == b"area,sub,hectares,type,planted"
}

// Whether each row from a row's start on has five fields: they are put past the end of a buffer, and so only counted.
fn all_five(sheet: &[u8], start: usize) -> bool
    ensures { result ≡ every five_fields (rows_of (drop start sheet.now)) }
{
    let mut unkept = [0u8; 1];
    let mut i = start;
    // Each turn goes on by the width of a row, so that no `for` stands here.
    while i < sheet.len() {
        let row = sheet_read::put_joined(sheet, i, &mut unkept, 1);
        if row.fields != FIELDS {
            return false;
        }
        i = row.next;
    }
    true
}

// Whether the first row is the heading, and each further row has five fields.
fn is_regular(sheet: &[u8]) -> bool
    ensures { result ≡ regular (rows_of sheet.now) }
{
    let mut heading = [0u8; HEADING_WIDTH];
    let row = sheet_read::put_joined(sheet, 0, &mut heading, 0);
    let whole = (row.fields == FIELDS) & (row.end == HEADING_WIDTH);
    whole & is_heading(&heading) & all_five(sheet, row.next)
}

// The smallest number that applies to a sheet as a whole.
pub fn judge(sheet: &[u8]) -> Verdict
    ensures { result ≡ sheet_verdict sheet.now }
{
    let sound = sheet_read::is_sound(sheet);
    let regular = is_regular(sheet);
    refuse_if(!sound, Refusal::SheetForm)?;
    refuse_if(!regular, Refusal::SheetRow)
}
