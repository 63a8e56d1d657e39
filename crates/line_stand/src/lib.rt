// The entries of a sub-area's stand: C clears it, P plants it.
#![tactic(auto)]

ghost use Rattle.std.specs.Prelude.{◌≡◌};
ghost use Rattle.text.specs.{split};
ghost use Rattle.line_entry.specs.{parsed_by, clear_rule, plant_rule};

use line_entry::{Act, AreaAct, Entry, Parsed};
use refusals::{Refusal, Verdict};

// C,area,sub,year
pub fn clear_entry(line: &[u8]) -> Parsed
    ensures { result ≡ parsed_by (clear_rule (split line.now)) }
{
    let places = text_field::scan(line);
    let area = line_entry::number_at(line, places, 1);
    let sub = line_entry::number_at(line, places, 2);
    let year = line_entry::number_at(line, places, 3);
    let v = line_entry::weigh_letter(line, places, b'C', 4);
    let v = line_entry::weigh_form(v, area);
    let v = line_entry::weigh_form(v, sub);
    let v = line_entry::weigh_form(v, year);
    let v = line_entry::weigh_area(v, area);
    let v = line_entry::weigh_sub(v, sub);
    let v = line_entry::weigh_year(v, year);
    v?;
    Ok(Entry::On(AreaAct {
        area: text_value::value_u16(area),
        act: Act::Clear {
            sub: text_value::value_u16(sub),
            year: text_value::value_u16(year),
        },
    }))
}

// P,area,sub,type,year
pub fn plant_entry(line: &[u8]) -> Parsed
    ensures { result ≡ parsed_by (plant_rule (split line.now)) }
{
    let places = text_field::scan(line);
    let area = line_entry::number_at(line, places, 1);
    let sub = line_entry::number_at(line, places, 2);
    let named = forest::read(text_field::field(line, places, 3));
    let year = line_entry::number_at(line, places, 4);
    let v = line_entry::weigh_letter(line, places, b'P', 5);
    let v = line_entry::weigh_form(v, area);
    let v = line_entry::weigh_form(v, sub);
    let v = line_entry::weigh_form(v, year);
    let v = line_entry::weigh_area(v, area);
    let v = line_entry::weigh_sub(v, sub);
    let v = refusals::weigh(v, line_type::is_unplantable(named), Refusal::ForestType);
    let v = line_entry::weigh_year(v, year);
    v?;
    Ok(Entry::On(AreaAct {
        area: text_value::value_u16(area),
        act: Act::Plant {
            sub: text_value::value_u16(sub),
            forest: line_type::forest_of(named),
            year: text_value::value_u16(year),
        },
    }))
}
