// A sheet of comma-separated values under RFC 4180, read by its bytes: whether it is sound, and a row of it, its fields joined by commas.
#![tactic(auto)]

ghost use Rattle.std.specs.Prelude.{◌≡◌};
ghost use Rattle.text.specs.{Wrote};
ghost use Rattle.sheet_read.specs.{after_field, plain_at, begins_at, turned, may_end, sound, quoted_mark, mark_of, mark_text, mark_fields, ends_row, Joined};

const QUOTE: u8 = b'"';

const CARRIAGE_RETURN: u8 = b'\r';

const LINE_FEED: u8 = b'\n';

// Where a reader stands between two bytes: before a row, before a field, in a field without quotes, in a quoted one, behind a quote in it, behind CR, or
// nowhere any more.
#[derive(Clone, Copy)]
pub enum Reading {
    RowStart,
    FieldStart,
    Plain,
    Quoted,
    Shut,
    RowEnd,
    Broken,
}

// What a byte is: nothing of a field, a field's own, the end of a field, or the end of a row.
#[derive(Clone, Copy)]
pub enum Mark {
    Pass,
    Keep,
    Field,
    Row,
}

// A row that was put: the place behind it in the sheet, how many fields it has, and the place after what was put.
#[derive(Clone, Copy)]
pub struct JoinedRow {
    pub next: usize,
    pub fields: usize,
    pub end: usize,
}

fn after_field(other: Reading, byte: u8) -> Reading
    ensures { result ≡ after_field other byte }
{
    if byte == b',' {
        return Reading::FieldStart;
    }
    if byte == CARRIAGE_RETURN {
        return Reading::RowEnd;
    }
    other
}

fn plain_at(byte: u8) -> Reading
    ensures { result ≡ plain_at byte }
{
    if (byte == QUOTE) | (byte == LINE_FEED) {
        return after_field(Reading::Broken, byte);
    }
    after_field(Reading::Plain, byte)
}

fn begins_at(byte: u8) -> Reading
    ensures { result ≡ begins_at byte }
{
    if byte == QUOTE {
        return Reading::Quoted;
    }
    plain_at(byte)
}

// Where a byte leads.
#[tactic(auto, unfolding(crate::specs::Turns::turned, crate::specs::Turns::begins_at, crate::specs::Turns::plain_at, crate::specs::Turns::after_field))]
pub fn turn(reading: Reading, byte: u8) -> Reading
    ensures { result ≡ turned reading byte }
{
    match reading {
        Reading::RowStart | Reading::FieldStart => begins_at(byte),
        Reading::Plain => plain_at(byte),
        Reading::Quoted => {
            if byte == QUOTE {
                return Reading::Shut;
            }
            Reading::Quoted
        }
        Reading::Shut => {
            if byte == QUOTE {
                return Reading::Quoted;
            }
            after_field(Reading::Broken, byte)
        }
        Reading::RowEnd => {
            if byte == LINE_FEED {
                return Reading::RowStart;
            }
            Reading::Broken
        }
        Reading::Broken => Reading::Broken,
    }
}

fn quoted_mark(before: Reading) -> Mark
    ensures { result ≡ quoted_mark before }
{
    match before {
        Reading::RowStart | Reading::FieldStart => Mark::Pass,
        _ => Mark::Keep,
    }
}

// What a byte is, by where it stands and where it leads.
pub fn mark_of(before: Reading, after: Reading) -> Mark
    ensures { result ≡ mark_of before after }
{
    match after {
        Reading::RowStart => Mark::Row,
        Reading::FieldStart => Mark::Field,
        Reading::Plain => Mark::Keep,
        Reading::Quoted => quoted_mark(before),
        Reading::Shut | Reading::RowEnd | Reading::Broken => Mark::Pass,
    }
}

fn may_end(reading: Reading) -> bool
    ensures { result ≡ may_end reading }
{
    !matches!(reading, Reading::Quoted | Reading::RowEnd | Reading::Broken)
}

// Whether neither quoting nor a row end is broken.
pub fn is_sound(sheet: &[u8]) -> bool
    ensures { result ≡ sound sheet.now }
{
    let mut reading = Reading::RowStart;
    for byte in sheet {
        reading = turn(reading, *byte);
    }
    may_end(reading)
}

fn put_marked(out: &mut [u8], at: usize, mark: Mark, byte: u8) -> usize
    ensures { Wrote out.old at (mark_text mark byte) out.new result }
{
    match mark {
        Mark::Pass | Mark::Row => at,
        Mark::Keep => text::put_byte(out, at, byte),
        Mark::Field => text::put_byte(out, at, b','),
    }
}

fn mark_fields(mark: Mark) -> usize
    ensures { result ≡ mark_fields mark }
{
    match mark {
        Mark::Field => 1,
        _ => 0,
    }
}

fn ends_row(mark: Mark) -> bool
    ensures { result ≡ ends_row mark }
{
    matches!(mark, Mark::Row)
}

// Puts the row that starts at a place, its fields unquoted and joined by commas, into `out` from `at` on.
pub fn put_joined(sheet: &[u8], start: usize, out: &mut [u8], at: usize) -> JoinedRow
    ensures { Joined sheet.now start out.old at out.new result }
{
    let mut reading = Reading::RowStart;
    let mut fields: usize = 1;
    let mut end = at;
    for i in start..sheet.len() {
        let byte = sheet[i];
        let next = turn(reading, byte);
        let mark = mark_of(reading, next);
        end = put_marked(out, end, mark, byte);
        fields += mark_fields(mark);
        if ends_row(mark) {
            return JoinedRow {
                next: i + 1,
                fields,
                end,
            };
        }
        reading = next;
    }
    JoinedRow {
        next: start.max(sheet.len()),
        fields,
        end,
    }
}
