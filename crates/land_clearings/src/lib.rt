// Clearings of trees, and those whose trees count for pre-1990 forest land.
#![tactic(auto)]

ghost use Rattle.std.specs.Prelude.{◌≡◌, cond};
ghost use Rattle.land_clearings.specs.{age_of, within, older, elder, counting_of};

use forest::Forest;

pub const MOST_EARLIER: usize = 4;

// Trees count by themselves from this age on, in years.
pub const LEAST_AGE: u16 = 9;

// How many years before another a clearing counts.
const WINDOW: u32 = 9;

#[derive(Clone, Copy)]
pub struct Clearing {
    pub forest: Forest,
    pub planted: u16,
    pub cleared: u16,
}

// The age of the trees; 0 where they are cleared before they are planted.
pub fn age(c: Clearing) -> u16
    ensures { result ≡ age_of c }
{
    c.cleared.saturating_sub(c.planted)
}

fn is_within(own: Clearing, c: Clearing) -> bool
    ensures { result ≡ within own c }
{
    (c.cleared <= own.cleared) & (own.cleared as u32 <= c.cleared as u32 + WINDOW)
}

fn is_older(c: Clearing, best: Clearing) -> bool
    ensures { result ≡ older c best }
{
    let a = age(c);
    let b = age(best);
    (b < a) | ((a == b) & (best.cleared < c.cleared))
}

// The best so far, or a clearing that is within the years and whose trees are older.
fn set_against(own: Clearing, best: Clearing, c: Clearing) -> Clearing
    ensures { result ≡ cond (within own c) (elder best c) best }
{
    if is_within(own, c) {
        if is_older(c, best) {
            return c;
        }
        return best;
    }
    best
}

// The clearing whose trees count, of one and earlier ones.
pub fn counting(own: Clearing, earlier: &[Clearing]) -> Clearing
    ensures { result ≡ counting_of own earlier.now }
{
    if LEAST_AGE <= age(own) {
        return own;
    }
    let mut best = own;
    for c in earlier {
        best = set_against(own, best, *c);
    }
    best
}
