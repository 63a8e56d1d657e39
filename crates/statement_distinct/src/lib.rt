// Whether no number stands twice, and whether no two areas bear the same number.
#![tactic(auto)]

ghost use Rattle.std.specs.Prelude.{◌≡◌, ℕ, min, eqb, drop};
ghost use Rattle.laws.specs.{some, distinct};
ghost use Rattle.holding.specs.{areas_of, Area};

use holding::{Holding, MOST_AREAS};

pub fn numbers(numbers: &[u16]) -> bool
    ensures { result ≡ distinct (λ (n : ℕ). n) numbers.now }
{
    let mut apart = true;
    for (i, number) in numbers.iter().enumerate() {
        let again = numbers[i + 1..].contains(number);
        apart = apart & !again;
    }
    apart
}

pub fn areas(holding: Holding) -> bool
    ensures { result ≡ distinct (λ (area : Area). area.number) (areas_of holding) }
{
    let held = holding::numbers_of(holding);
    numbers(&held[..holding.count.min(MOST_AREAS)])
}
