// The entries of an accounting area: A opens it, R files a return, W withdraws it.
#![tactic(auto)]

ghost use Rattle.std.specs.Prelude.{◌≡◌};
ghost use Rattle.text.specs.{split};
ghost use Rattle.line_entry.specs.{parsed_by, open_rule, file_rule, withdraw_rule};
ghost use Rattle.line_area.specs.{area_year};

use line_entry::{Act, AreaAct, Entry, Parsed};
use refusals::Verdict;

// The fields of A and of R: what refuses them, and the area and the year.
#[derive(Clone, Copy)]
struct AreaAndYear {
    verdict: Verdict,
    area: u16,
    year: u16,
}

fn area_and_year(line: &[u8], letter: u8) -> AreaAndYear
    ensures { result ≡ area_year letter (split line.now) }
{
    let places = text_field::scan(line);
    let area = line_entry::number_at(line, places, 1);
    let year = line_entry::number_at(line, places, 2);
    let v = line_entry::weigh_letter(line, places, letter, 3);
    let v = line_entry::weigh_form(v, area);
    let v = line_entry::weigh_form(v, year);
    let v = line_entry::weigh_area(v, area);
    let v = line_entry::weigh_year(v, year);
    AreaAndYear {
        verdict: v,
        area: text_value::value_u16(area),
        year: text_value::value_u16(year),
    }
}

// A,area,opening
pub fn open_entry(line: &[u8]) -> Parsed
    ensures { result ≡ parsed_by (open_rule (split line.now)) }
{
    let read = area_and_year(line, b'A');
    read.verdict?;
    Ok(Entry::On(AreaAct {
        area: read.area,
        act: Act::Open { opening: read.year },
    }))
}

// R,area,last
pub fn file_entry(line: &[u8]) -> Parsed
    ensures { result ≡ parsed_by (file_rule (split line.now)) }
{
    let read = area_and_year(line, b'R');
    read.verdict?;
    Ok(Entry::On(AreaAct {
        area: read.area,
        act: Act::File { last: read.year },
    }))
}

// W,area
pub fn withdraw_entry(line: &[u8]) -> Parsed
    ensures { result ≡ parsed_by (withdraw_rule (split line.now)) }
{
    let places = text_field::scan(line);
    let area = line_entry::number_at(line, places, 1);
    let v = line_entry::weigh_letter(line, places, b'W', 2);
    let v = line_entry::weigh_form(v, area);
    let v = line_entry::weigh_area(v, area);
    v?;
    Ok(Entry::On(AreaAct {
        area: text_value::value_u16(area),
        act: Act::Withdraw,
    }))
}
