// Forest types: their letters, read and written, and their order.
#![tactic(auto)]

ghost use Rattle.std.specs.Prelude.{◌≡◌};
ghost use Rattle.forest.specs.{region_number, letters_of, letter_names, region_names, named, order_of, same_type};

#[derive(Clone, Copy, PartialEq, Eq)]
pub enum Region {
    Auckland,
    BayOfPlenty,
    CanterburyWestCoast,
    Gisborne,
    HawkesBaySouthernNorthIsland,
    NelsonMarlborough,
    Otago,
    Southland,
    WaikatoTaupo,
}

// The type of a stand, or bare land. Only Pinus radiata carries a region.
#[derive(Clone, Copy, PartialEq, Eq)]
pub enum Forest {
    Bare,
    Radiata(Region),
    DouglasFir,
    ExoticSoftwoods,
    ExoticHardwoods,
    Indigenous,
}

#[tactic(auto, unfolding(crate::specs::Types::letter_names, crate::specs::Types::beside))]
fn letter_names(letter: u8) -> Option<Forest>
    ensures { result ≡ letter_names letter }
{
    match letter {
        b'B' => Some(Forest::Bare),
        b'D' => Some(Forest::DouglasFir),
        b'S' => Some(Forest::ExoticSoftwoods),
        b'H' => Some(Forest::ExoticHardwoods),
        b'N' => Some(Forest::Indigenous),
        _ => None,
    }
}

#[tactic(auto, unfolding(crate::specs::Types::region_names, crate::specs::Types::beside))]
fn region_names(digit: u8) -> Option<Forest>
    ensures { result ≡ region_names digit }
{
    match digit {
        b'1' => Some(Forest::Radiata(Region::Auckland)),
        b'2' => Some(Forest::Radiata(Region::BayOfPlenty)),
        b'3' => Some(Forest::Radiata(Region::CanterburyWestCoast)),
        b'4' => Some(Forest::Radiata(Region::Gisborne)),
        b'5' => Some(Forest::Radiata(Region::HawkesBaySouthernNorthIsland)),
        b'6' => Some(Forest::Radiata(Region::NelsonMarlborough)),
        b'7' => Some(Forest::Radiata(Region::Otago)),
        b'8' => Some(Forest::Radiata(Region::Southland)),
        b'9' => Some(Forest::Radiata(Region::WaikatoTaupo)),
        _ => None,
    }
}

// The type that a part of a line names.
pub fn read(letters: &[u8]) -> Option<Forest>
    ensures { result ≡ named letters.now }
{
    match letters {
        [letter] => letter_names(*letter),
        [b'P', digit] => region_names(*digit),
        _ => None,
    }
}

fn region_number(region: Region) -> u8
    ensures { result ≡ region_number region }
{
    match region {
        Region::Auckland => 1,
        Region::BayOfPlenty => 2,
        Region::CanterburyWestCoast => 3,
        Region::Gisborne => 4,
        Region::HawkesBaySouthernNorthIsland => 5,
        Region::NelsonMarlborough => 6,
        Region::Otago => 7,
        Region::Southland => 8,
        Region::WaikatoTaupo => 9,
    }
}

// The letters of a type.
#[tactic(auto, unfolding(crate::specs::Types::letters_of))]
pub fn write(forest: Forest) -> &'static [u8]
    ensures { result.now ≡ letters_of forest }
{
    match forest {
        Forest::Bare => b"B",
        Forest::Radiata(Region::Auckland) => b"P1",
        Forest::Radiata(Region::BayOfPlenty) => b"P2",
        Forest::Radiata(Region::CanterburyWestCoast) => b"P3",
        Forest::Radiata(Region::Gisborne) => b"P4",
        Forest::Radiata(Region::HawkesBaySouthernNorthIsland) => b"P5",
        Forest::Radiata(Region::NelsonMarlborough) => b"P6",
        Forest::Radiata(Region::Otago) => b"P7",
        Forest::Radiata(Region::Southland) => b"P8",
        Forest::Radiata(Region::WaikatoTaupo) => b"P9",
        Forest::DouglasFir => b"D",
        Forest::ExoticSoftwoods => b"S",
        Forest::ExoticHardwoods => b"H",
        Forest::Indigenous => b"N",
    }
}

// The place of a type in the order of the schedules' columns, counted from 1; bare land has none, 0.
pub fn order(forest: Forest) -> usize
    ensures { result ≡ order_of forest }
{
    match forest {
        Forest::Bare => 0,
        Forest::Radiata(region) => region_number(region) as usize,
        Forest::DouglasFir => 10,
        Forest::ExoticSoftwoods => 11,
        Forest::ExoticHardwoods => 12,
        Forest::Indigenous => 13,
    }
}

pub fn same(a: Forest, b: Forest) -> bool
    ensures { result ≡ same_type a b }
{
    a == b
}
