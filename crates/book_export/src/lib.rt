// Which lines of a book its export has.
#![tactic(auto)]

ghost use Rattle.std.specs.Prelude.{◌≡◌};
ghost use Rattle.book_export.specs.{adds, is_addition, is_exported};

use line_entry::{Act, Entry, Parsed};
use refusals::Verdict;

// Whether an act adds a sub-area.
fn adds(act: Act) -> bool
    ensures { result ≡ adds act }
{
    matches!(act, Act::Add { .. })
}

// Whether a line was read as an S entry.
fn is_addition(parsed: Parsed) -> bool
    ensures { result ≡ is_addition parsed }
{
    match parsed {
        Ok(Entry::On(on)) => adds(on.act),
        _ => false,
    }
}

// Whether a line's row is exported, as it was read and by its verdict: the row of an accepted S entry.
pub fn is_exported(parsed: Parsed, verdict: Verdict) -> bool
    ensures { result ≡ is_exported verdict parsed }
{
    is_addition(parsed) & verdict.is_ok()
}
