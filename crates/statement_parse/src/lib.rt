// Reads a statement's lines as a holding, with the place after them. What the holding must keep is judged after it is read.
#![tactic(auto)]

ghost use Rattle.std.specs.Prelude.{◌≤◌, ◌≡◌};
ghost use Rattle.holding.specs.{most_areas, most_subs};
ghost use Rattle.statement_parse.specs.{residue_at, sub_line_at, years_at, amounts_at, area_line_at, areas_at, holding_at};

use holding::{Area, Holding, MOST_AREAS, MOST_SUBS, Residue, Sub};
use units::{Kilograms, Tenths};

// The most areas and sub-areas, as they are read.
pub const AREAS_READ: u64 = holding::MOST_AREAS as u64;

const SUBS_READ: u64 = holding::MOST_SUBS as u64;

// The greatest numbers of 8, 16 and 32 bits, and of fifteen digits.
const MOST8: u64 = 255;

const MOST16: u64 = 65535;

const MOST32: u64 = 4294967295;

const MOST_READ: u64 = 999999999999999;

#[derive(Clone, Copy)]
pub struct ResidueRead {
    pub residue: Residue,
    pub next: usize,
}

#[derive(Clone, Copy)]
pub struct SubRead {
    pub sub: Sub,
    pub next: usize,
}

// The sub-areas of an area, as the definitions have them.
#[derive(Clone, Copy)]
pub struct YearsRead {
    pub number: u16,
    pub opening: u16,
    pub open_year: u16,
    pub latest: u16,
    pub next: usize,
}

#[derive(Clone, Copy)]
pub struct AmountsRead {
    pub withdrawn: bool,
    pub returns: u16,
    pub stock: Kilograms,
    pub received: u64,
    pub surrendered: u64,
    pub next: usize,
}

#[derive(Clone, Copy)]
pub struct AreaRead {
    pub area: Area,
    pub next: usize,
}

#[derive(Clone, Copy)]
pub struct AreasRead {
    pub areas: [Area; MOST_AREAS],
    pub next: usize,
}

#[derive(Clone, Copy)]
pub struct HoldingRead {
    pub holding: Holding,
    pub next: usize,
}

fn read_residue(s: &[u8], at: usize) -> ResidueRead
    ensures { result ≡ residue_at s.now at }
{
    let type_field = statement_cursor::forest_type(s, at, b',');
    let age_field = statement_cursor::number(s, type_field.next, b',', MOST16);
    let year_field = statement_cursor::number(s, age_field.next, b'\n', MOST16);
    let forest = type_field.forest;
    let age = age_field.value as u16;
    let year = year_field.value as u16;
    ResidueRead {
        residue: Residue { forest, age, year },
        next: year_field.next,
    }
}

// A sub-area's line.
fn read_sub(s: &[u8], at: usize) -> SubRead
    ensures { result ≡ sub_line_at s.now at }
{
    let start = statement_cursor::line(s, at, b'S');
    let number = statement_cursor::number(s, start, b',', MOST8);
    let tenths = statement_cursor::number(s, number.next, b',', MOST32);
    let trees = statement_cursor::forest_type(s, tenths.next, b',');
    let planted = statement_cursor::number(s, trees.next, b',', MOST16);
    let cleared = read_residue(s, planted.next);
    let forest = trees.forest;
    let residue = cleared.residue;
    SubRead {
        sub: Sub {
            number: number.value as u16,
            tenths: Tenths(tenths.value as u32),
            forest,
            planted: planted.value as u16,
            residue,
        },
        next: cleared.next,
    }
}

// The number and the years of an area's line.
fn read_years(s: &[u8], at: usize) -> YearsRead
    ensures { result ≡ years_at s.now at }
{
    let number = statement_cursor::number(s, at, b',', MOST16);
    let opening = statement_cursor::number(s, number.next, b',', MOST16);
    let open_year = statement_cursor::number(s, opening.next, b',', MOST16);
    let latest = statement_cursor::number(s, open_year.next, b',', MOST16);
    YearsRead {
        number: number.value as u16,
        opening: opening.value as u16,
        open_year: open_year.value as u16,
        latest: latest.value as u16,
        next: latest.next,
    }
}

// What an area's line says of its returns and units.
fn read_amounts(s: &[u8], at: usize) -> AmountsRead
    ensures { result ≡ amounts_at s.now at }
{
    let withdrawn = statement_cursor::number(s, at, b',', 1);
    let returns = statement_cursor::number(s, withdrawn.next, b',', MOST16);
    let stock = statement_cursor::number(s, returns.next, b',', MOST_READ);
    let received = statement_cursor::number(s, stock.next, b',', MOST_READ);
    let surrendered = statement_cursor::number(s, received.next, b',', MOST_READ);
    AmountsRead {
        withdrawn: withdrawn.value == 1,
        returns: returns.value as u16,
        stock: Kilograms(stock.value),
        received: received.value,
        surrendered: surrendered.value,
        next: surrendered.next,
    }
}

// An area's line and those of its sub-areas, and the place after the last of them; the place 0 where they cannot be read.
pub fn read_area(s: &[u8], at: usize) -> AreaRead
    ensures { result ≡ area_line_at s.now at }
{
    let start = statement_cursor::line(s, at, b'A');
    let years = read_years(s, start);
    let amounts = read_amounts(s, years.next);
    let count = statement_cursor::number(s, amounts.next, b'\n', SUBS_READ);
    let n = count.value as usize;
    let stock = amounts.stock;
    let mut area = Area {
        number: years.number,
        opening: years.opening,
        open_year: years.open_year,
        latest: years.latest,
        withdrawn: amounts.withdrawn,
        returns: amounts.returns,
        stock,
        received: amounts.received,
        surrendered: amounts.surrendered,
        count: n,
        subs: [holding::EMPTY_SUB; MOST_SUBS],
    };
    let mut next = count.next;
    for i in 0..n {
        let read = read_sub(s, next);
        area.subs[i] = read.sub;
        next = read.next;
    }
    AreaRead { area, next }
}

fn read_areas(s: &[u8], at: usize, count: usize) -> AreasRead
    requires { count ≤ most_areas }
    ensures { result ≡ areas_at s.now at count }
{
    let mut areas = [holding::empty_area(); MOST_AREAS];
    let mut next = at;
    for i in 0..count {
        let read = read_area(s, next);
        areas[i] = read.area;
        next = read.next;
    }
    AreasRead { areas, next }
}

// The holding that a statement's lines say, and the place after the last of them; the place 0 where they cannot be read.
pub fn read_holding(s: &[u8]) -> HoldingRead
    ensures { result ≡ holding_at s.now }
{
    let start = statement_cursor::start(s, 0, b'H');
    let count = statement_cursor::number(s, start, b'\n', AREAS_READ);
    let read = read_areas(s, count.next, count.value as usize);
    let areas = read.areas;
    HoldingRead {
        holding: Holding {
            count: count.value as usize,
            areas,
        },
        next: read.next,
    }
}
