// The area that a line of a book names.
#![tactic(auto)]

ghost use Rattle.std.specs.Prelude.{◌≡◌, take};
ghost use Rattle.book_find.specs.{place_in, nothing_named, named_by};

use line_entry::{Entry, Parsed};

// The number of the area that a line names, 0 where it names none, and its place.
#[derive(Clone, Copy)]
pub struct Named {
    pub number: u16,
    pub found: Option<usize>,
}

fn nothing_named() -> Named
    ensures { result ≡ nothing_named }
{
    Named {
        number: 0,
        found: None,
    }
}

// The place of a number among the first `count` of the numbers.
#[tactic(auto, unfolding(holding::specs::Areas::place_from))]
fn place_in(numbers: &[u16], count: usize, number: u16) -> Option<usize>
    ensures { result ≡ place_in (take count numbers.now) number }
{
    numbers.iter().take(count).position(|one| *one == number)
}

// The area that a line names, as it was read, by the numbers of the areas, of which the first `count` stand: for a line that is no entry they are not
// looked at.
pub fn find(numbers: &[u16], count: usize, parsed: Parsed) -> Named
    ensures { result ≡ named_by (take count numbers.now) parsed }
{
    match parsed {
        Ok(Entry::On(on)) => Named {
            number: on.area,
            found: place_in(numbers, count, on.area),
        },
        _ => nothing_named(),
    }
}
