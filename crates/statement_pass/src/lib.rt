// One pass over a statement's bytes, area by area: whether it carries a holding, the area of a number, where that area's lines stand, and the units of
// all areas. No holding is made.
#![tactic(auto)]

ghost use Rattle.std.specs.Prelude.{◌≡◌, ◌≤◌};
ghost use Rattle.holding.specs.{most_areas};
ghost use Rattle.statement_pass.specs.{PassesAreas, passed_over};

use holding::{Area, MOST_AREAS};
use holding_look::{Looked, Units};
use refusals::{Refusal, Verdict};
use statement_parse::AREAS_READ;

// What a pass over the areas finds: whether a statement carries each, their numbers, the one looked for with the places where its lines start and
// end, the units of all where each is carried, and the place after the last.
#[derive(Clone, Copy)]
struct AreasPassed {
    kept: bool,
    numbers: [u16; MOST_AREAS],
    found: Option<usize>,
    area: Area,
    from: usize,
    to: usize,
    units: Units,
    next: usize,
}

fn pass_areas(s: &[u8], at: usize, count: usize, number: u16) -> AreasPassed
    requires { count ≤ most_areas }
    ensures { PassesAreas s.now at count number result }
{
    let mut kept = true;
    let mut numbers = [0u16; MOST_AREAS];
    let mut found = None;
    let mut named = holding::empty_area();
    let mut from = s.len();
    let mut to = s.len();
    let mut received: u64 = 0;
    let mut surrendered: u64 = 0;
    let mut balance: u64 = 0;
    let mut next = at;
    for i in 0..count {
        let read = statement_parse::read_area(s, next);
        let area = read.area;
        let carried = statement_judge::area(area);
        kept = kept & carried;
        if kept {
            received += area.received;
            surrendered += area.surrendered;
            balance += area.received - area.surrendered;
        }
        numbers[i] = area.number;
        let known = holding_look::is_known(found);
        if (area.number == number) & !known {
            found = Some(i);
            named = area;
            from = next;
            to = read.next;
        }
        next = read.next;
    }
    AreasPassed {
        kept,
        numbers,
        found,
        area: named,
        from,
        to,
        units: Units {
            received,
            surrendered,
            balance,
        },
        next,
    }
}

// What a pass over a statement finds: whether it carries a holding, the area looked up, the places after its first line and where the area's lines
// start and end, and the units of all areas. Where a statement is turned back, no area stands.
#[derive(Clone, Copy)]
pub struct Passed {
    pub verdict: Verdict,
    pub looked: Looked,
    pub body: usize,
    pub from: usize,
    pub to: usize,
    pub units: Units,
}

pub fn pass(s: &[u8], number: u16) -> Passed
    ensures { result ≡ passed_over s.now number }
{
    let start = statement_cursor::start(s, 0, b'H');
    let head = statement_cursor::number(s, start, b'\n', AREAS_READ);
    let body = head.next;
    let count = head.value as usize;
    let areas = pass_areas(s, body, count, number);
    let numbers = areas.numbers;
    let apart = statement_distinct::numbers(&numbers[..count]);
    let next = areas.next;
    if (0 < next) & (next == s.len()) & areas.kept & apart {
        let found = areas.found;
        let area = areas.area;
        let units = areas.units;
        return Passed {
            verdict: Ok(()),
            looked: Looked {
                number,
                count,
                found,
                area,
            },
            body,
            from: areas.from,
            to: areas.to,
            units,
        };
    }
    let none = holding::empty_area();
    Passed {
        verdict: Err(Refusal::CarriedStatement),
        looked: Looked {
            number,
            count: 0,
            found: None,
            area: none,
        },
        body,
        from: s.len(),
        to: s.len(),
        units: Units {
            received: 0,
            surrendered: 0,
            balance: 0,
        },
    }
}
