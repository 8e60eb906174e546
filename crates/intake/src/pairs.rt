// The least pair of orders with the same mark. A block is the next orders in the order of the listing, as many as there is room for, sorted by mark; one pass over the orders from its first on looks
// each up in it. A pair of an earlier block is less than any of a later one, so the first block that has a pair has the least of all.
ghost use Rattle.std.specs.Prelude.{◌≡◌, ◌+◌, ◌<◌, ◌≤◌, ltb, length, take};
ghost use Rattle.page.specs.Rows.{Listable, visible_rows};
ghost use Rattle.intake.specs.Orders.{repeated_in};
ghost use Rattle.intake.specs.Places.{low_at, mark_at, wide, Has, Place, Places, places_from};
ghost use Rattle.intake.specs.Blocks.{rank_at, Sorted, Filled, Around, Firstly, Least, lesser_of, least_pair};

use crate::RepeatedOrders;
use crate::orders::{has_mark, high_at, low_at, next_order, order_of, tuple_at};
use crate::sort::sort;
use sorting::inner::partition_point;

// How many places a block has, and the page and slot to go on from.
#[derive(Clone, Copy)]
pub struct Block {
    pub len: usize,
    pub page: usize,
    pub slot: usize,
}

// A pair of places.
#[derive(Clone, Copy)]
pub struct Pair {
    pub first: u64,
    pub second: u64,
}

// Fills the block with the orders from a slot of the page at an index on, as many as it has room for.
fn fill(pages: &[u8], index: usize, slot: usize, a: &mut [u64]) -> Block
    requires listable { Listable pages.now }
    requires pages_len_bound { (length pages.now ≤ 1073741824) × (0 < length a.old) }
    ensures { Filled pages.now index slot a.new result }
{
    let mut i = index;
    let mut k = slot;
    for len in 0..a.len() {
        let Some(n) = next_order(pages, i, k) else {
            return Block {
                len,
                page: i,
                slot: k,
            };
        };
        a[len] = n.place;
        i = n.page;
        k = n.slot;
    }
    Block {
        len: a.len(),
        page: i,
        slot: k,
    }
}

// Whether the mark of the order at a place is below that of these halves.
fn below(pages: &[u8], x: u64, low: u64, high: u64) -> bool
    requires { Place pages.now x }
    ensures { result ≡ ltb (mark_at pages.now x) (wide low high) }
{
    let h = high_at(pages, x);
    if h < high {
        return true;
    }
    if high < h {
        return false;
    }
    low_at(pages, x) < low
}

// How many places of a sorted block have a mark below that of these halves.
fn rank(pages: &[u8], a: &[u64], low: u64, high: u64) -> usize
    requires places { Places pages.now a.now }
    requires sorted { Sorted (rank_at pages.now) a.now }
    ensures { Around (mark_at pages.now) a.now (wide low high) result }
{
    partition_point(a.len(), |i| below(pages, a[i], low, high))
}

// The first place of a sorted block with the mark of these halves.
fn first_with(pages: &[u8], a: &[u64], low: u64, high: u64) -> Option<u64>
    requires places { Places pages.now a.now }
    requires sorted { Sorted (rank_at pages.now) a.now }
    ensures { Firstly (mark_at pages.now) (wide low high) a.now result }
{
    let i = rank(pages, a, low, high);
    if a.len() <= i {
        return None;
    }
    let x = a[i];
    if has_mark(pages, tuple_at(x), low, high) {
        return Some(x);
    }
    None
}

// The less of a pair, if there is one, and of a place with a later one.
fn lesser(best: Option<Pair>, first: u64, second: u64) -> Option<Pair>
    ensures { result ≡ lesser_of best first second }
{
    if second <= first {
        return best;
    }
    if let Some(p) = best {
        let kept = p.first <= first;
        if kept {
            return best;
        }
    }
    Some(Pair { first, second })
}

// The least pair of an order of the block and a later one, over the orders from a slot of the page at an index on.
fn pass(pages: &[u8], index: usize, slot: usize, a: &[u64]) -> Option<Pair>
    requires listable { Listable pages.now }
    requires pages_len_bound { length pages.now ≤ 1073741824 }
    requires places { Places pages.now a.now }
    requires sorted { Sorted (rank_at pages.now) a.now }
    ensures { Least (mark_at pages.now) a.now (places_from pages.now index slot) result }
{
    let mut best = None;
    let mut i = index;
    let mut k = slot;
    while let Some(n) = next_order(pages, i, k) {
        let x = n.place;
        if let Some(f) = first_with(pages, a, low_at(pages, x), high_at(pages, x)) {
            best = lesser(best, f, x);
        }
        i = n.page;
        k = n.slot;
    }
    best
}

// The least pair of the orders from the first of a block on that has its earlier order in the block; the block's places are put in order.
fn least_in(pages: &[u8], index: usize, slot: usize, a: &mut [u64]) -> Option<Pair>
    requires listable { Listable pages.now }
    requires pages_len_bound { length pages.now ≤ 1073741824 }
    requires places { Places pages.now a.old }
    ensures { Least (mark_at pages.now) a.old (places_from pages.now index slot) result }
{
    sort(pages, a);
    pass(pages, index, slot, a)
}

// The least pair of all: block after block. Where the next one begins is known only once one is filled, so no range is gone through.
fn least(pages: &[u8], a: &mut [u64]) -> Option<Pair>
    requires listable { Listable pages.now }
    requires pages_len_bound { (length pages.now ≤ 1073741824) × (0 < length a.old) }
    ensures { result ≡ least_pair (mark_at pages.now) (places_from pages.now 0 0) }
{
    let mut i = 0;
    let mut k = 0;
    loop {
        let b = fill(pages, i, k, a);
        let len = b.len;
        if len == 0 {
            return None;
        }
        if let Some(p) = least_in(pages, i, k, &mut a[..len]) {
            return Some(p);
        }
        i = b.page;
        k = b.slot;
    }
}

// The least pair of visible orders with the same mark.
pub fn repeated(pages: &[u8], a: &mut [u64]) -> Option<RepeatedOrders>
    requires listable { Listable pages.now }
    requires pages_len_bound { (length pages.now ≤ 1073741824) × (0 < length a.old) }
    ensures { result ≡ repeated_in pages.now (visible_rows pages.now) }
{
    let p = least(pages, a)?;
    Some(RepeatedOrders {
        first: order_of(pages, p.first),
        second: order_of(pages, p.second),
    })
}
