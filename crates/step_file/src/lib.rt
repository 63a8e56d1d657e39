// R files a return: the change of the stock since the last, and the units received or due for it.
// Both tables are lent: the participant's, and the cells of Schedule 6.
#![tactic(auto)]

ghost use Rattle.std.specs.Prelude.{◌≡◌, ◌≤◌, true};
ghost use Rattle.refusals.specs.{smallest};
ghost use Rattle.statement_carried.specs.{fields_carried};
ghost use Rattle.step_file.specs.{file_cases, received_of, due_of, settled_of, filed};

use holding::Area;
use holding_look::Looked;
use refusals::{Refusal, Verdict};
use step_outcome::{Filed, Outcome, Report};
use units::Change;

#[tactic(auto, unfolding(refusals::specs::Refusals::weigh_all, refusals::specs::Refusals::smallest, refusals::specs::Refusals::weighed, step_outcome::specs::Outcomes::area_cases, crate::specs::Filing::file_cases))]
fn verdict(number: u16, last: u16, found: Option<usize>, area: Area) -> Verdict
    ensures { result ≡ smallest (file_cases number last found area) }
{
    refusals::refuse_if(!ranges::is_area(number), Refusal::AreaOrSubNumber)?;
    refusals::refuse_if(!ranges::is_year(last), Refusal::YearRange)?;
    step_outcome::weigh_area(Ok(()), found, area)?;
    refusals::refuse_if(
        (last < area.open_year) | (last < area.latest),
        Refusal::YearBefore,
    )
}

fn received(change: Change) -> u64
    ensures { result ≡ received_of change }
{
    match change {
        Change::Gain(tonnes) => tonnes,
        Change::Loss(_) => 0,
    }
}

// The smaller of a loss and the balance.
fn due(change: Change, balance: u64) -> u64
    ensures { result ≡ due_of change balance }
{
    match change {
        Change::Gain(_) => 0,
        Change::Loss(tonnes) => tonnes.min(balance),
    }
}

// What a return reports, and the area after it.
#[derive(Clone, Copy)]
struct Settled {
    report: Report,
    area: Area,
}

fn settle<'a>(own: &'a [u16], default: &'a [u16], area: Area, last: u16) -> Settled
    requires { (fields_carried area ≡ true) × (last ≤ 2199) }
    ensures { result ≡ settled_of own.now default.now area last }
{
    let opening = area.stock;
    let closing = stocks::area_stock(own, default, area, last + 1);
    let change = opening.change_to(closing);
    let gained = received(change);
    let owed = due(change, area.received - area.surrendered);
    let mut after = area;
    after.open_year = last + 1;
    after.returns = area.returns + 1;
    after.stock = closing;
    after.received = area.received + gained;
    after.surrendered = area.surrendered + owed;
    let balance = after.received - after.surrendered;
    Settled {
        report: Report::Return(Filed {
            area: area.number,
            first: area.open_year,
            last,
            change,
            received: gained,
            due: owed,
            balance,
        }),
        area: after,
    }
}

pub fn file<'a>(own: &'a [u16], default: &'a [u16], looked: Looked, last: u16) -> Outcome
    ensures { result ≡ filed own.now default.now looked last }
{
    let found = looked.found;
    let area = looked.area;
    let v = verdict(looked.number, last, found, area);
    match v {
        Err(refusal) => step_outcome::turned(refusal),
        Ok(()) => {
            let settled = settle(own, default, area, last);
            let report = settled.report;
            let after = settled.area;
            Outcome {
                verdict: Ok(()),
                report,
                place: found,
                count: looked.count,
                area: after,
            }
        }
    }
}
