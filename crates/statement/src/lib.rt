// A carried statement: a holding read from lent bytes, or refused under 11.
#![tactic(auto)]

ghost use Rattle.std.specs.Prelude.{◌≡◌};
ghost use Rattle.statement.specs.{read_of};

use holding::Holding;
use refusals::{Refusal, Verdict};

// Where a statement is turned back the holding is the empty one.
#[derive(Clone, Copy)]
pub struct Read {
    pub verdict: Verdict,
    pub holding: Holding,
}

pub fn read_from(bytes: &[u8]) -> Read
    ensures { result ≡ read_of bytes.now }
{
    let found = statement_parse::read_holding(bytes);
    let next = found.next;
    let holding = found.holding;
    let kept = statement_judge::holding(holding);
    if (0 < next) & (next == bytes.len()) & kept {
        return Read {
            verdict: Ok(()),
            holding,
        };
    }
    let empty = holding::empty_holding();
    Read {
        verdict: Err(Refusal::CarriedStatement),
        holding: empty,
    }
}
