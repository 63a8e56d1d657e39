// The cells of a T line: judged one after the other, and their tenths kept.
#![tactic(auto)]

ghost use Rattle.std.specs.Prelude.{◌≡◌, set};
ghost use Rattle.std.proofs.lemmas.List.Edits.{sets};
ghost use Rattle.text.specs.{split};
ghost use Rattle.line_cells.specs.{cells_found, tenths_all};

// Whether a cell is malformed, and whether one is over the greatest.
#[derive(Clone, Copy)]
pub struct Cells {
    pub malformed: bool,
    pub over: bool,
}

const GREATEST_CELL: u64 = table::CELL_CEILING as u64;

// Keeps a cell's tenths, while there is room.
fn keep(cells: &mut [u16], k: usize, tenths: u16)
    ensures { cells.new ≡ set cells.old k tenths }
{
    if k < cells.len() {
        cells[k] = tenths;
    }
}

// Judges the cells that a text has between commas, and keeps their tenths.
pub fn scan_cells(text: &[u8], cells: &mut [u16]) -> Cells
    ensures value { result ≡ cells_found (split text.now) }
    ensures cells_after { cells.new ≡ sets cells.old 0 (tenths_all (split text.now)) }
{
    let mut malformed = false;
    let mut over = false;
    let mut k: usize = 0;
    let mut start: usize = 0;
    loop {
        let end = text::end_of(text, start, b',');
        let cell = text_decimal::cell(&text[start..end]);
        malformed = malformed | text_value::is_malformed(cell);
        over = over | text_value::is_outside(cell, 0, GREATEST_CELL);
        keep(cells, k, text_value::value_u16(cell));
        if text.len() <= end {
            break;
        }
        k += 1;
        start = end + 1;
    }
    Cells { malformed, over }
}
