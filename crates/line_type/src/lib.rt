// What the type that a line names allows.
#![tactic(auto)]

ghost use Rattle.std.specs.Prelude.{◌≡◌};
ghost use Rattle.line_type.specs.{unlisted, unplantable, misdated_if, misdated, forest_of};

use forest::Forest;
use text_number::Number;

pub fn is_unlisted(named: Option<Forest>) -> bool
    ensures { result ≡ unlisted named }
{
    named.is_none()
}

pub fn is_unplantable(named: Option<Forest>) -> bool
    ensures { result ≡ unplantable named }
{
    match named {
        Some(forest) => ranges::is_bare(forest),
        None => true,
    }
}

// Bare land is planted in the year 0.
fn is_misdated_if(bare: bool, planted: Number) -> bool
    ensures { result ≡ misdated_if bare planted }
{
    if bare {
        return text_value::is_outside(planted, 0, 0);
    }
    text_value::is_outside(
        planted,
        ranges::FIRST_PLANTED as u64,
        ranges::LAST_YEAR as u64,
    )
}

pub fn is_misdated(named: Option<Forest>, planted: Number) -> bool
    ensures { result ≡ misdated named planted }
{
    match named {
        Some(forest) => is_misdated_if(ranges::is_bare(forest), planted),
        None => is_misdated_if(false, planted),
    }
}

// The type named, where one is.
pub fn forest_of(named: Option<Forest>) -> Forest
    ensures { result ≡ forest_of named }
{
    named.unwrap_or(Forest::Bare)
}
