// Where the fields of a line stand, found in one scan, and a field as a part of its line.
#![tactic(auto)]

ghost use Rattle.std.specs.Prelude.{◌≡◌, set};
ghost use Rattle.text.specs.{split};
ghost use Rattle.text_field.specs.{places_of, part};

// How many fields there are, and where each of the first six starts and the one behind it does.
// Behind the last field another would start past the line's end.
#[derive(Clone, Copy)]
pub struct Places {
    pub count: usize,
    pub starts: [usize; 7],
}

// Notes where a field starts, while there is room.
fn note(starts: &mut [usize], k: usize, start: usize)
    ensures { starts.new ≡ set starts.old k start }
{
    if k < starts.len() {
        starts[k] = start;
    }
}

// The field scan stands in the line scan and is left with the place where the field ends.
#[tactic(auto, using(text::proofs::Widths::end_later))]
pub fn scan(line: &[u8]) -> Places
    ensures { result ≡ places_of (split line.now) }
{
    let mut starts = [0usize; 7];
    let mut count: usize = 0;
    let mut start: usize = 0;
    'line: loop {
        let mut i = start;
        let end = 'field: loop {
            if line.len() <= i {
                break 'field i;
            }
            if line[i] == b',' {
                break 'field i;
            }
            i += 1;
        };
        note(&mut starts, count, start);
        count += 1;
        start = end + 1;
        if line.len() <= end {
            break 'line;
        }
    }
    note(&mut starts, count, start);
    Places { count, starts }
}

// The field at a place from 0 to 5, by where the fields of its line stand; elsewhere nothing.
pub fn field(line: &[u8], places: Places, k: usize) -> &[u8]
    ensures { result.now ≡ part line.now places k }
{
    if 6 <= k {
        return &line[0..0];
    }
    let starts = places.starts;
    let start = starts[k];
    let next = starts[k + 1];
    if next <= start {
        return &line[0..0];
    }
    if line.len() < next - 1 {
        return &line[0..0];
    }
    &line[start..next - 1]
}
