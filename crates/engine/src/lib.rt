// The calls of a recorder's own program: one takes a line by a statement and a table, one gives the foot of a statement, one adds the sub-areas of a sheet,
// and one exports those of a book.
#![tactic(auto)]

ghost use Rattle.std.specs.Prelude.{◌≡◌, length};
ghost use Rattle.call_answer.specs.{call_answer, call_output};
ghost use Rattle.call_foot.specs.{foot_answer, foot_output};
ghost use Rattle.call_import.specs.{import_answer, import_output};
ghost use Rattle.engine.specs.{signed, Fitting, export_answer, export_output};

use refusals::Written;

// How many bytes were written, or a refusal's number with a minus sign.
fn answered(answer: Written) -> i64
    requires { Fitting answer }
    ensures { result ≡ signed answer }
{
    match answer {
        Err(refusal) => -(u8::from(refusal) as i64),
        Ok(count) => count as i64,
    }
}

// Takes a line by a statement and a table. `out` takes the new statement and then the report of an R or W line, or the longer table of a T line:
// the answer is how many bytes, at most 32916, or below 0 the number of the refusal, which leaves `out` as it was.
#[unsafe(no_mangle)]
pub extern "C" fn carbon_account_line(
    statement: &[u8],
    table: &[u8],
    line: &[u8],
    out: &mut [u8],
) -> i64
    ensures value { result ≡ call_answer statement.now table.now line.now (length out.old) }
    ensures out_after { out.new ≡ call_output statement.now table.now line.now out.old }
{
    let answer = call_line::call(statement, table, line, out);
    answered(answer)
}

// Gives the foot of a statement: `out` takes the F line. The answer is how many bytes, at most 44, or below 0 the number of the refusal, which leaves
// `out` as it was.
#[unsafe(no_mangle)]
pub extern "C" fn carbon_foot(statement: &[u8], out: &mut [u8]) -> i64
    ensures value { result ≡ foot_answer statement.now (length out.old) }
    ensures out_after { out.new ≡ foot_output statement.now out.old }
{
    let answer = call_foot::foot(statement, out);
    answered(answer)
}

// Adds the sub-areas of a sheet to the holding of a statement, under a table: `out` takes the new statement. The answer is how many bytes, at most 32853, or
// below 0 the number of the refusal, which leaves `out` as it was.
#[unsafe(no_mangle)]
pub extern "C" fn carbon_import_sheet(
    statement: &[u8],
    table: &[u8],
    sheet: &[u8],
    out: &mut [u8],
) -> i64
    ensures value { result ≡ import_answer statement.now table.now sheet.now (length out.old) }
    ensures out_after { out.new ≡ import_output statement.now table.now sheet.now out.old }
{
    let answer = call_import::import_sheet(statement, table, sheet, out);
    answered(answer)
}

// Exports the accepted S entries of a book: `out` takes the sheet. The answer is how many bytes, at most 196653, or below 0 the number of the refusal, which
// leaves `out` as it was.
#[unsafe(no_mangle)]
pub extern "C" fn carbon_export_sheet(book: &[u8], out: &mut [u8]) -> i64
    ensures value { result ≡ export_answer book.now (length out.old) }
    ensures out_after { out.new ≡ export_output book.now out.old }
{
    let answer = sheet_export::export(book, out);
    answered(answer)
}
