// A sheet imported by a recorder's own program, onto the holding that a statement carries.
#![tactic(auto)]

ghost use Rattle.std.specs.Prelude.{◌≡◌};
ghost use Rattle.call_output.specs.{Gives};
ghost use Rattle.sheet_import.specs.{onto_bytes};
ghost use Rattle.call_import.specs.{under_verdict, import_verdict, import_bytes};

use refusals::Written;
use table::LONGEST_TABLE;

// Imports a sheet under the numbers of a table, and writes the new statement to the front of `out`: how many bytes, or why nothing is written. The table is
// judged first, since its number is less than the statement's.
fn import_under(statement: &[u8], own: &[u16], sheet: &[u8], out: &mut [u8]) -> Written
    ensures { Gives (under_verdict own.now statement.now sheet.now) (onto_bytes own.now statement.now sheet.now) out.old result out.new }
{
    table::judge(own)?;
    sheet_import::import(own, statement, sheet, out)
}

// Imports a sheet by a statement and a table. Room for a table is laid out only where there is one.
pub fn import_sheet(statement: &[u8], table: &[u8], sheet: &[u8], out: &mut [u8]) -> Written
    ensures { Gives (import_verdict statement.now table.now sheet.now) (import_bytes statement.now table.now sheet.now) out.old result out.new }
{
    if table.len() == 0 {
        let none = [0u16; 1];
        return import_under(statement, &none[0..0], sheet, out);
    }
    let mut numbers = [0u16; LONGEST_TABLE];
    let count = table_bytes::decode(table, &mut numbers)?;
    import_under(statement, &numbers[0..count], sheet, out)
}
