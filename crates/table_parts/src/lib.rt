// The parts of a participant's table: the order of its columns, any part of a list of numbers, and the lengths that the table begins with.
#![tactic(auto)]

ghost use Rattle.std.specs.Prelude.{◌≡◌, take, drop};
ghost use Rattle.laws.specs.{sum_of};
ghost use Rattle.text.specs.{holds};
ghost use Rattle.table_parts.specs.{kind_letters, type_letters, column_number, length_of, lengths_of};

pub const COLUMNS: usize = 10;

pub fn is_kind(letter: u8) -> bool
    ensures { result ≡ holds letter kind_letters }
{
    text::holds(b"GR", letter)
}

pub fn is_type(letter: u8) -> bool
    ensures { result ≡ holds letter type_letters }
{
    text::holds(b"PDSHN", letter)
}

// The number of a column by the letters of its kind and its type; where it is none, ten or above.
#[tactic(auto, unfolding(crate::specs::Order::column_number))]
pub fn column_number(kind: u8, letter: u8) -> usize
    ensures { result ≡ column_number kind letter }
{
    text::end_of(b"GR", 0, kind) * 5 + text::end_of(b"PDSHNPDSHN", 0, letter)
}

// The part of `len` numbers from `start`, or as much of it as there is.
pub fn part(numbers: &[u16], start: usize, len: usize) -> &[u16]
    ensures { result.now ≡ take len (drop start numbers.now) }
{
    let rest = &numbers[start.min(numbers.len())..];
    &rest[..len.min(rest.len())]
}

// The length of a column by its number, of which there are ten.
pub fn column_length(table: &[u16], number: usize) -> usize
    ensures { result ≡ length_of table.now number }
{
    let lengths = part(table, 0, COLUMNS);
    lengths.get(number).copied().unwrap_or(0) as usize
}

// How many cells lie before those of a column, by its number; past the last number, how many there are.
#[tactic(auto, unfolding(laws::specs::Lists::sum_of))]
pub fn cells_before(table: &[u16], number: usize) -> usize
    ensures { result ≡ sum_of (take number (lengths_of table.now)) }
{
    let mut cells: usize = 0;
    for length in part(table, 0, COLUMNS.min(number)) {
        cells += *length as usize;
    }
    cells
}
