// The entry of a sub-area: S adds it.
#![tactic(auto)]

ghost use Rattle.std.specs.Prelude.{◌≡◌};
ghost use Rattle.text.specs.{split};
ghost use Rattle.line_entry.specs.{parsed_by, add_rule};

use line_entry::{Act, AreaAct, Entry, Parsed};
use refusals::{Refusal, Verdict};

const LEAST_HECTARES: u64 = ranges::LEAST_HECTARES as u64;

const MOST_HECTARES: u64 = ranges::MOST_HECTARES as u64;

// S,area,sub,hectares,type,planted
pub fn add_entry(line: &[u8]) -> Parsed
    ensures { result ≡ parsed_by (add_rule (split line.now)) }
{
    let places = text_field::scan(line);
    let area = line_entry::number_at(line, places, 1);
    let sub = line_entry::number_at(line, places, 2);
    let hectares = text_decimal::hectares(text_field::field(line, places, 3));
    let named = forest::read(text_field::field(line, places, 4));
    let planted = line_entry::number_at(line, places, 5);
    let v = line_entry::weigh_letter(line, places, b'S', 6);
    let v = line_entry::weigh_form(v, area);
    let v = line_entry::weigh_form(v, sub);
    let v = line_entry::weigh_form(v, hectares);
    let v = line_entry::weigh_form(v, planted);
    let v = line_entry::weigh_area(v, area);
    let v = line_entry::weigh_sub(v, sub);
    let v = refusals::weigh(v, line_type::is_unlisted(named), Refusal::ForestType);
    let too_small_or_large = text_value::is_outside(hectares, LEAST_HECTARES, MOST_HECTARES);
    let v = refusals::weigh(v, too_small_or_large, Refusal::Hectares);
    let v = refusals::weigh(
        v,
        line_type::is_misdated(named, planted),
        Refusal::YearRange,
    );
    v?;
    Ok(Entry::On(AreaAct {
        area: text_value::value_u16(area),
        act: Act::Add {
            sub: text_value::value_u16(sub),
            land: units::rounded(text_value::value_u32(hectares)),
            forest: line_type::forest_of(named),
            planted: text_value::value_u16(planted),
        },
    }))
}
