// The pass by granules over a Data page's slots. A tuple has at least 24 bytes, so that of two that start in the same 24 bytes one runs into the other: a granule
// of 24 bytes holds at most one start, and granule after granule each start is compared with the end before it.
ghost use Rattle.std.specs.Prelude.{◌≡◌, true, None, ℕ, ◌≤◌, length, replicate};
ghost use Rattle.page.specs.Layout.{page_bytes, slot_limit, body_of};
ghost use Rattle.page.specs.Fault.{slots_fault};
ghost use Rattle.page.specs.Granules.{granules, Singly, Placed, Lined};

use crate::faults::tuple_fits;
use crate::inner::{slot_len, slot_off};
use crate::{BODY_BYTES, PAGE_BYTES, ROW_HEAD_BYTES};

// The grid's numbers stay u16 with 0 for none: as Options they would take twice the stack.
const GRANULES: usize = 680;

// Like `in_order` it goes over the slots that hold a tuple, and does something else with each: a function that calls a closure for each would need a contract longer than either loop.
// Puts 1 + the number of each slot that holds a tuple into the granule where that starts; false where a slot is at fault by itself or finds its granule taken.
fn placed(page: &[u8; PAGE_BYTES], end: usize, count: usize, grid: &mut [u16; GRANULES]) -> bool
    requires { (count ≤ slot_limit) × (grid.old ≡ replicate granules 0) }
    ensures { result ≡ true → Singly (body_of page.now) end count × Placed (body_of page.now) count grid.new }
{
    for k in 0..count {
        let o = slot_off(page, k);
        let n = slot_len(page, k);
        if o + n == 0 {
            continue;
        }
        if !tuple_fits(page, end, BODY_BYTES, o, n) {
            return false;
        }
        let g = o / ROW_HEAD_BYTES;
        if grid[g] != 0 {
            return false;
        }
        grid[g] = (k + 1) as u16;
    }
    true
}

// Whether no tuple starts before the end of the one in the granules before.
fn lined(page: &[u8; PAGE_BYTES], count: usize, grid: &[u16; GRANULES]) -> bool
    requires count_bound { count ≤ slot_limit }
    requires placed { Placed (body_of page.now) count grid.now }
    ensures { result ≡ true → Lined (body_of page.now) count granules }
{
    let mut last: usize = 0;
    for g in 0..GRANULES {
        let m = grid[g] as usize;
        if m == 0 {
            continue;
        }
        let o = slot_off(page, m - 1);
        if o < last {
            return false;
        }
        last = o + slot_len(page, m - 1);
    }
    true
}

// Whether no slot is at fault, in whatever order the tuples stand.
pub fn by_granules(page: &[u8; PAGE_BYTES], end: usize, count: usize) -> bool
    requires { count ≤ slot_limit }
    ensures { result ≡ true → slots_fault (body_of page.now) end count 0 ≡ None }
{
    let mut grid = [0u16; GRANULES];
    if !placed(page, end, count, &mut grid) {
        return false;
    }
    lined(page, count, &grid)
}
