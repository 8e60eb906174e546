// The rules of a Data page's slots.
ghost use Rattle.std.specs.Prelude.{◌≡◌, true, None, ℕ, ◌+◌, ◌*◌, ◌≤◌, ◌<◌, length};
ghost use Rattle.endian.specs.Pick.{pick};
ghost use Rattle.page.specs.Layout.{page_bytes, body_bytes, slot_limit, body_of};
ghost use Rattle.page.specs.Fault.{is_tuple, is_empty, is_filled, share, slots_fault};

use crate::granules::by_granules;
use crate::inner::{slot_len, slot_off};
use crate::{BODY_BYTES, DELETED_AT, Fault, PAGE_BYTES, ROW_HEAD_BYTES};

// Whether the n bytes at o of the body are a tuple that lies between end and top.
pub fn tuple_fits(page: &[u8; PAGE_BYTES], end: usize, top: usize, o: usize, n: usize) -> bool
    requires { (top ≤ body_bytes) × (o < 65536) × (n < 65536) }
    ensures { result ≡ is_tuple (body_of page.now) end top o n }
{
    if n < ROW_HEAD_BYTES {
        return false;
    }
    if o < end {
        return false;
    }
    if top < o + n {
        return false;
    }
    page[DELETED_AT + o] <= 1
}

// Whether slot k is empty, or holds a tuple that lies between end and the body's end.
fn slot_fits(page: &[u8; PAGE_BYTES], end: usize, k: usize) -> bool
    requires { k < slot_limit }
    ensures { result ≡ pick (is_empty (body_of page.now) k) true (is_filled (body_of page.now) end k) }
{
    let o = slot_off(page, k);
    let n = slot_len(page, k);
    if o + n == 0 {
        return true;
    }
    tuple_fits(page, end, BODY_BYTES, o, n)
}

// Whether the tuples of slots j and k share a byte.
fn shares(page: &[u8; PAGE_BYTES], j: usize, k: usize) -> bool
    requires { (j < slot_limit) × (k < slot_limit) }
    ensures { result ≡ share (body_of page.now) j k }
{
    let a = slot_off(page, j);
    let b = slot_off(page, k);
    a.max(b) < (a + slot_len(page, j)).min(b + slot_len(page, k))
}

// Whether no slot is at fault and the tuples stand in packed order, each before the one of the slot before it.
fn in_order(page: &[u8; PAGE_BYTES], end: usize, count: usize) -> bool
    requires { count ≤ slot_limit }
    ensures { result ≡ true → slots_fault (body_of page.now) end count 0 ≡ None }
{
    let mut top = BODY_BYTES;
    for k in 0..count {
        let o = slot_off(page, k);
        let n = slot_len(page, k);
        if o + n == 0 {
            continue;
        }
        if !tuple_fits(page, end, top, o, n) {
            return false;
        }
        top = o;
    }
    true
}

// The first slot that is at fault by itself or shares a byte with an earlier one. An empty slot shares none and is passed.
fn first_fault(page: &[u8; PAGE_BYTES], end: usize, count: usize) -> Option<Fault>
    requires { count ≤ slot_limit }
    ensures { result ≡ slots_fault (body_of page.now) end count 0 }
{
    let mut found = None;
    'slots: for k in 0..count {
        if !slot_fits(page, end, k) {
            found = Some(Fault::Slot(k));
            break;
        }
        if slot_len(page, k) == 0 {
            continue;
        }
        'earlier: for j in 0..k {
            if shares(page, j, k) {
                found = Some(Fault::Slot(k));
                break 'slots;
            }
        }
    }
    found
}

// The first slot at fault of a page whose header's fields are right: one pass where the tuples stand in packed order, a pass by granules where no slot is at
// fault, else the slots one with another.
pub fn slots_fault(page: &[u8; PAGE_BYTES], end: usize, count: usize) -> Option<Fault>
    requires { count ≤ slot_limit }
    ensures { result ≡ slots_fault (body_of page.now) end count 0 }
{
    if in_order(page, end, count) {
        return None;
    }
    if by_granules(page, end, count) {
        return None;
    }
    first_fault(page, end, count)
}
