// Refusals under the numbers of documents 01 and 02, the smallest that applies, and what a write into a lent buffer answers.
#![tactic(auto)]

ghost use Rattle.std.specs.Prelude.{◌≡◌, Ok};
ghost use Rattle.refusals.specs.{number_of, weighed, smaller};

#[derive(Clone, Copy)]
pub enum Refusal {
    Form,
    AreaOrSubNumber,
    ForestType,
    Hectares,
    YearRange,
    TableColumn,
    TreeList,
    OutputShort,
    ParcelList,
    NoTreesOfNineYears,
    CarriedStatement,
    AreaUsed,
    AreaUnknown,
    AreaWithdrawn,
    AreasFull,
    SubUsed,
    SubsFull,
    AreaFiled,
    SubUnknown,
    ClearingBareLand,
    PlantingUnderTrees,
    YearBefore,
    PlantedAfterOpening,
    TableAfterArea,
    SheetForm,
    SheetRow,
}

// Nothing has applied so far, or a refusal has.
pub type Verdict = Result<(), Refusal>;

// How many bytes or numbers were written, or why none were.
pub type Written = Result<usize, Refusal>;

impl From<Refusal> for u8 {
    ghost from_gives = { λ refusal number. number ≡ number_of refusal };

    fn from(refusal: Refusal) -> u8 {
        match refusal {
            Refusal::Form => 1,
            Refusal::AreaOrSubNumber => 2,
            Refusal::ForestType => 3,
            Refusal::Hectares => 4,
            Refusal::YearRange => 5,
            Refusal::TableColumn => 6,
            Refusal::TreeList => 7,
            Refusal::OutputShort => 8,
            Refusal::ParcelList => 9,
            Refusal::NoTreesOfNineYears => 10,
            Refusal::CarriedStatement => 11,
            Refusal::AreaUsed => 21,
            Refusal::AreaUnknown => 22,
            Refusal::AreaWithdrawn => 23,
            Refusal::AreasFull => 24,
            Refusal::SubUsed => 25,
            Refusal::SubsFull => 26,
            Refusal::AreaFiled => 27,
            Refusal::SubUnknown => 28,
            Refusal::ClearingBareLand => 29,
            Refusal::PlantingUnderTrees => 30,
            Refusal::YearBefore => 31,
            Refusal::PlantedAfterOpening => 32,
            Refusal::TableAfterArea => 33,
            Refusal::SheetForm => 41,
            Refusal::SheetRow => 42,
        }
    }
}

// The verdict so far, or the refusal where none has applied and this one does.
#[tactic(auto, unfolding(crate::specs::Refusals::weighed))]
pub fn weigh(so_far: Verdict, applies: bool, refusal: Refusal) -> Verdict
    ensures { result ≡ weighed so_far applies refusal }
{
    match so_far {
        Err(first) => Err(first),
        Ok(()) => refuse_if(applies, refusal),
    }
}

// The refusal where it applies.
#[tactic(auto, unfolding(crate::specs::Refusals::weighed))]
pub fn refuse_if(applies: bool, refusal: Refusal) -> Verdict
    ensures { result ≡ weighed (Ok tt) applies refusal }
{
    if applies {
        return Err(refusal);
    }
    Ok(())
}

// Of two verdicts the refusal with the smaller number.
pub fn least(a: Verdict, b: Verdict) -> Verdict
    ensures { result ≡ smaller a b }
{
    match a {
        Ok(()) => b,
        Err(first) => match b {
            Ok(()) => a,
            Err(second) => {
                if u8::from(first) <= u8::from(second) {
                    return a;
                }
                b
            }
        },
    }
}
