// The foot of a listing: the units of all areas, withdrawn ones included.
#![tactic(auto)]

ghost use Rattle.std.specs.Prelude.{true, ◌≡◌};
ghost use Rattle.holding_look.specs.{units_of};
ghost use Rattle.statement_field.specs.{Put};
ghost use Rattle.book_print.specs.{foot_width};
ghost use Rattle.book_foot.specs.{all_carried, foot_of};

use holding::{Holding, MOST_AREAS};
use holding_look::Units;
use refusals::Refusal;

// Whether a statement carries the fields of every area that stands.
fn all_carried(holding: Holding) -> bool
    ensures { result ≡ all_carried holding }
{
    let carried = holding
        .standing()
        .iter()
        .all(|area| statement_carried::fields(*area));
    (holding.count <= MOST_AREAS) & carried
}

fn sum_up(holding: Holding) -> Units
    requires { all_carried holding ≡ true }
    ensures { result ≡ units_of holding }
{
    let mut received: u64 = 0;
    let mut surrendered: u64 = 0;
    let mut balance: u64 = 0;
    for area in holding.standing() {
        received += area.received;
        surrendered += area.surrendered;
        balance += area.received - area.surrendered;
    }
    Units {
        received,
        surrendered,
        balance,
    }
}

// Puts the foot of a holding: F and the units of all its areas; X,0,11 where an area has fields that no statement carries. The answer is the place after
// what was put.
pub fn put_foot(out: &mut [u8], at: usize, holding: Holding) -> usize
    ensures { Put foot_width out.old at (foot_of holding) out.new result }
{
    if all_carried(holding) {
        let units = sum_up(holding);
        return book_print::put_foot(out, at, units.received, units.surrendered, units.balance);
    }
    book_print::put_refusal(out, at, 0, Refusal::CarriedStatement)
}
