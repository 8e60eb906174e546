// Collects the first places of the numbers from lo on into an array of fixed size. Where the array is full and an index of it still
// fills more than half, the lower half is kept and the range's end falls to its last number. What is above it is for a next pass.
ghost use Rattle.std.specs.Prelude.{[], ◌∷◌, ◌++◌, ◌+◌, ◌≤◌, ◌<◌, length, take};
ghost use Rattle.index.specs.Places.{Places};
ghost use Rattle.index.specs.Collect.{Stock, Lowered, Put, Collected};

use crate::inner::{build, build_all, number_of};
use endian::TxnNumber;

// How many places are held, and the range's end. The array is lent at each call and not kept here: a walk that offers places to two arrays lends each for one entry at a time.
#[derive(Clone, Copy)]
pub struct Held {
    pub len: usize,
    pub hi: TxnNumber,
}

// Makes room in a full array.
fn cut(log: &[u8], a: &mut [u32], lo: TxnNumber, hi: TxnNumber) -> Held
    requires stock { Stock log.now lo.0 hi.0 a.old }
    requires in_bounds { 2 ≤ length a.old }
    ensures { (result.len < length a.new) × Lowered log.now lo.0 hi.0 a.old result.hi.0 (take result.len a.new) }
{
    let n = build_all(log, a);
    let half = a.len() / 2;
    if n <= half {
        return Held { len: n, hi: hi };
    }
    let last = number_of(log, a[half - 1]);
    Held {
        len: half,
        hi: TxnNumber(last),
    }
}

// Puts place p, of number t, behind the first len, unless t is above hi. Says how many places there are then.
fn put(a: &mut [u32], len: usize, hi: TxnNumber, t: TxnNumber, p: u32) -> usize
    requires { len < length a.old }
    ensures { Put a.old len hi.0 t.0 p a.new result }
{
    if hi < t {
        return len;
    }
    a[len] = p;
    len + 1
}

// Offers place p to an array that holds some.
pub fn offer(log: &[u8], a: &mut [u32], lo: TxnNumber, held: Held, p: u32) -> Held
    requires le_p { (1 ≤ p) × (p + 20 ≤ length log.now) }
    requires len_in_bounds { (held.len ≤ length a.old) × (2 ≤ length a.old) }
    requires stock { Stock log.now lo.0 held.hi.0 (take held.len a.old) }
    ensures { (result.len ≤ length a.new) × Lowered log.now lo.0 held.hi.0 (take held.len a.old ++ (p ∷ [])) result.hi.0 (take result.len a.new) }
{
    let t = number_of(log, p);
    if t < lo.0 {
        return held;
    }
    let len = held.len;
    let hi = held.hi;
    if hi.0 < t {
        return held;
    }
    if len < a.len() {
        let n = put(a, len, hi, TxnNumber(t), p);
        return Held { len: n, hi: hi };
    }
    let c = cut(log, a, lo, hi);
    let h = c.hi;
    let n = put(a, c.len, h, TxnNumber(t), p);
    Held { len: n, hi: h }
}

// Offers all places. In a recovery the walk of the log takes this loop's place.
fn fill(log: &[u8], places: &[u32], a: &mut [u32], lo: TxnNumber) -> Held
    requires places { Places log.now places.now }
    requires in_bounds { 2 ≤ length a.old }
    ensures { (result.len ≤ length a.new) × Lowered log.now lo.0 18446744073709551615 places.now result.hi.0 (take result.len a.new) }
{
    let mut held = Held {
        len: 0,
        hi: TxnNumber(18446744073709551615),
    };
    for p in places {
        held = offer(log, a, lo, held, *p);
    }
    held
}

// An index of the places of the numbers from lo to the range's end that is answered. It is at least lo, so a next pass from the
// number behind it has less to do.
pub fn index(log: &[u8], places: &[u32], a: &mut [u32], lo: TxnNumber) -> Held
    requires places { Places log.now places.now }
    requires in_bounds { 2 ≤ length a.old }
    ensures { (result.len ≤ length a.new) × Collected log.now lo.0 result.hi.0 places.now (take result.len a.new) }
{
    let h = fill(log, places, a, lo);
    let n = build(log, a, h.len);
    let hi = h.hi;
    Held { len: n, hi: hi }
}
