// A call's column of a table: what refuses it, by the table and by the statement.
#![tactic(auto)]

ghost use Rattle.std.specs.Prelude.{◌≡◌, take};
ghost use Rattle.call_column.specs.{cells_verdict};

use refusals::{Refusal, Verdict};
use table::LONGEST_TABLE;

// What refuses a column of given cells on the table that is the first `count` of the numbers, by a statement: it has to be read, and no area may stand.
pub fn judge_cells(
    statement: &[u8],
    numbers: &[u16; LONGEST_TABLE],
    count: usize,
    column: usize,
    cells: &[u16],
) -> Verdict
    ensures { result ≡ cells_verdict (take count numbers.now) statement.now column cells.now }
{
    let passed = statement_pass::pass(statement, 0);
    let read_verdict = passed.verdict;
    let looked = passed.looked;
    let table_verdict = table_extend::judge(numbers, count, column, cells);
    let grown_verdict = refusals::weigh(table_verdict, 1 <= looked.count, Refusal::TableAfterArea);
    refusals::least(read_verdict, grown_verdict)
}
