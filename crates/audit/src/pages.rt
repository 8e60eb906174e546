// One page before and after: the lowest slot in which it differs from what recovery would leave.
ghost use Rattle.std.specs.Prelude.{◌≡◌, ◌+◌, ◌≤◌, max, length};
ghost use Rattle.endian.specs.Numbers.{part};
ghost use Rattle.wal.specs.Walk.{entries};
ghost use Rattle.page.specs.Layout.{page_bytes, count_of};
ghost use Rattle.rules.specs.Mend.{top_of};
ghost use Rattle.rules.specs.Shape.{same};
ghost use Rattle.change.specs.Tuples.{Lies, tuple_in};
ghost use Rattle.images.specs.Page.{Sound};
ghost use Rattle.audit.specs.Judge.{alike, apart, slot_agrees, head_agrees, slots_in, slots_from};

use crate::Finding;
use crate::bytes::{same, same_stamped};
use change::Image;
use endian::PageNumber;
use images::Slots;
use images::inner::{bytes, kept_image};
use page::inner::{count, id, kind, magic};
use page::{HEAD_BYTES, RESERVED_AT};
use refusals::Verdict;

// No difference.
pub fn nothing() -> Finding
    ensures { result ≡ alike }
{
    Finding {
        verdict: Verdict {
            number: 0,
            place: 0,
        },
        differs: false,
        page: PageNumber(0),
        slot: 0,
    }
}

// A difference in slot k of page i.
pub fn difference(i: usize, k: usize) -> Finding
    ensures { result ≡ apart i k }
{
    Finding {
        verdict: Verdict {
            number: 0,
            place: 0,
        },
        differs: true,
        page: PageNumber(i as u64),
        slot: k,
    }
}

// Whether the n bytes of a page from a place on are the tuple that an image of the log or of another page stands for.
fn same_tuple(log: &[u8], p: &[u8], m: Image, q: &[u8], at: usize, n: usize) -> bool
    requires lies { Lies log.now p.now m }
    requires n_in_bounds { at + n ≤ length q.now }
    ensures { result ≡ same (tuple_in log.now p.now m) (part at n q.now) }
{
    if m.length != n {
        return false;
    }
    let there = &q[at..at + n];
    let Some(x) = m.deleted_by else {
        return same(bytes(m, log, p), there);
    };
    same_stamped(bytes(m, log, p), x.0, there)
}

// Whether slot k of a page, which now is q, holds what recovery would leave there.
fn slot_agrees(slots: &Slots, q: &[u8], k: usize) -> bool
    requires sound { Sound slots.now.page.now }
    requires sound_2 { Sound q.now }
    ensures { result ≡ slot_agrees (entries slots.now.log.now) slots.now.i slots.now.page.now q.now k }
{
    let m = slots.image(k);
    let o = kept_image(q, k);
    same_tuple(slots.log, slots.page, m, q, o.place, o.length)
}

// The lowest slot of a page, which now is q, that does not; recovery would leave own slots.
pub fn slots_finding(slots: &Slots, own: usize, q: &[u8]) -> Finding
    requires sound { Sound slots.now.page.now }
    requires own_value { own ≡ max (count_of slots.now.page.now) (top_of slots.now.i (entries slots.now.log.now)) }
    requires sound_2 { Sound q.now }
    ensures { result ≡ slots_from (slot_agrees (entries slots.now.log.now) slots.now.i slots.now.page.now q.now) slots.now.i (slots_in (entries slots.now.log.now) slots.now.i slots.now.page.now q.now) 0 }
{
    let n = own.max(count(q));
    for k in 0..n {
        if !slot_agrees(slots, q, k) {
            return difference(slots.i, k);
        }
    }
    nothing()
}

// Whether two pages have the same magic, type, id and reserved bytes.
pub fn head_agrees(p: &[u8], q: &[u8]) -> bool
    requires { (length p.now ≡ page_bytes) × (length q.now ≡ page_bytes) }
    ensures { result ≡ head_agrees p.now q.now }
{
    if magic(p) != magic(q) {
        return false;
    }
    if kind(p) != kind(q) {
        return false;
    }
    if id(p) != id(q) {
        return false;
    }
    same(&p[RESERVED_AT..HEAD_BYTES], &q[RESERVED_AT..HEAD_BYTES])
}
