// The three units of the accounts, and the rounding to tenths of a hectare and to tonnes.
// Products alone turn tenths of a hectare and tenths of a tonne per hectare into kilograms, and kilograms are added to kilograms alone.
#![tactic(auto)]

ghost use Rattle.std.specs.Prelude.{◌≡◌, ◌*◌, ◌≤◌};
ghost use Rattle.units.specs.{tenths_of, trees_of, residue_of, no_kilograms, plus, tonnes, change_between};

// Tenths of a hectare.
#[derive(Clone, Copy)]
pub struct Tenths(pub u32);

// Tenths of a tonne of carbon dioxide per hectare.
#[derive(Clone, Copy)]
pub struct Rate(pub u16);

#[derive(Clone, Copy)]
pub struct Kilograms(pub u64);

// A change of carbon stock in tonnes.
#[derive(Clone, Copy)]
pub enum Change {
    Gain(u64),
    Loss(u64),
}

// Ten-thousandths of a hectare, rounded to tenths.
pub fn rounded(ten_thousandths: u32) -> Tenths
    ensures { result ≡ tenths_of ten_thousandths }
{
    Tenths(ten_thousandths / 1000 + ten_thousandths % 1000 / 500)
}

impl Tenths {
    // The stock of trees on this land.
    pub fn trees(self, rate: Rate) -> Kilograms
        ensures { (result ≡ trees_of self rate) × (result.0 ≤ 4294967295 * 65535 * 10) }
    {
        Kilograms(self.0 as u64 * rate.0 as u64 * 10)
    }

    // What remains of the residue of a clearing, of which `share` tenths are left.
    pub fn residue(self, rate: Rate, share: u8) -> Kilograms
        ensures { (result ≡ residue_of self rate share) × (result.0 ≤ 4294967295 * 65535 * 255) }
    {
        let whole = self.0 as u64 * rate.0 as u64;
        let left = share as u64;
        Kilograms(whole * left)
    }
}

// Kilograms to the nearest tonne, halves up.
fn nearest(kg: u64) -> u64
    ensures { result ≡ tonnes kg }
{
    kg / 1000 + kg % 1000 / 500
}

// The most kilograms that there is room for.
const MOST_KILOGRAMS: u64 = 18446744073709551615;

impl Kilograms {
    pub fn none() -> Kilograms
        ensures { result ≡ no_kilograms }
    {
        Kilograms(0)
    }

    // The sum of two stocks, which stops at the most that there is room for.
    pub fn plus(self, more: Kilograms) -> Kilograms
        ensures { result ≡ plus self more }
    {
        let stock = self.0;
        let other = more.0;
        if MOST_KILOGRAMS - stock < other {
            return Kilograms(MOST_KILOGRAMS);
        }
        Kilograms(stock + other)
    }

    pub fn to_tonnes(self) -> u64
        ensures { result ≡ tonnes self.0 }
    {
        let kg = self.0;
        nearest(kg)
    }

    // The change from this stock to a later one.
    pub fn change_to(self, later: Kilograms) -> Change
        ensures { result ≡ change_between self later }
    {
        let opening = self.0;
        let closing = later.0;
        if opening <= closing {
            return Change::Gain(nearest(closing - opening));
        }
        Change::Loss(nearest(opening - closing))
    }
}
