// The search for a mark: page by page, each verified and then gone over while it is at hand, over all rows wherever the order stands.
ghost use Rattle.std.specs.Prelude.{false, ◌≡◌, ◌+◌, ◌<◌, length};
ghost use Rattle.refusals.specs.Verdict.{by_number};
ghost use Rattle.page.specs.Layout.{page_bytes, data_type, type_of, count_of, body_of, slot_off, slot_len, slot_at};
ghost use Rattle.page.specs.Good.{DataGood};
ghost use Rattle.page.specs.Fault.{size_wrong};
ghost use Rattle.page.specs.Rows.{visible};
ghost use Rattle.intake.specs.Orders.{order_found};
ghost use Rattle.intake.specs.Places.{wide};
ghost use Rattle.intake.specs.Search.{is_short, short_slots, is_marked, first_slot, first_order, slots_found, both, with_page};

use crate::orders::{TUPLE_BYTES, has_mark, order_at};
use crate::{FoundOrder, Order};
use crc32c::inner::Tables;
use endian::PageNumber;
use endian::inner::u64_at;
use page::inner::{count, kind, page_at, slot_len, slot_off, verify_from};
use page::{DATA_TYPE, HEAD_BYTES, PAGE_BYTES};
use refusals::Refused;

// Where in a page the xmax and the deleted byte of a tuple at the body's start stand.
const XMAX_AT: usize = HEAD_BYTES + 8;

const DELETED_AT: usize = HEAD_BYTES + 16;

// Whether slot k holds a visible row, whose tuple starts at o of the body, which the caller has read; `page` looks at its own rows by the slot alone.
fn is_visible(page: &[u8], k: usize, o: usize) -> bool
    requires page_len { length page.now ≡ page_bytes }
    requires data_good { DataGood page.now }
    requires k_bound { (k < count_of page.now) × (0 < slot_len (body_of page.now) k) × (o ≡ slot_off (body_of page.now) k) }
    ensures { result ≡ visible (slot_at page.now k) }
{
    if page[DELETED_AT + o] != 0 {
        return false;
    }
    u64_at(page, XMAX_AT + o) == 0
}

// Whether slot k holds a visible payload that is too short for an order.
fn is_short(page: &[u8], k: usize) -> bool
    requires page_len { length page.now ≡ page_bytes }
    requires data_good { DataGood page.now }
    requires k_bound { k < count_of page.now }
    ensures { result ≡ is_short (slot_at page.now k) }
{
    let n = slot_len(page, k);
    if TUPLE_BYTES <= n {
        return false;
    }
    if n == 0 {
        return false;
    }
    is_visible(page, k, slot_off(page, k))
}

// How many slots of a Data page do.
fn short_slots(page: &[u8]) -> usize
    requires page_len { length page.now ≡ page_bytes }
    requires data_good { DataGood page.now }
    ensures { (result ≡ short_slots page.now (count_of page.now) 0) × (result < 65536) }
{
    let mut short = 0;
    for k in 0..count(page) {
        if is_short(page, k) {
            short += 1;
        }
    }
    short
}

// Whether slot k holds a visible order with the mark of these halves.
fn is_marked(page: &[u8], k: usize, low: u64, high: u64) -> bool
    requires page_len { length page.now ≡ page_bytes }
    requires data_good { DataGood page.now }
    requires k_bound { k < count_of page.now }
    ensures { result ≡ is_marked (wide low high) (slot_at page.now k) }
{
    let n = slot_len(page, k);
    if n < TUPLE_BYTES {
        return false;
    }
    let o = slot_off(page, k);
    if has_mark(page, HEAD_BYTES + o, low, high) {
        return is_visible(page, k, o);
    }
    false
}

// The first slot of a Data page that does.
fn first_slot(page: &[u8], low: u64, high: u64) -> Option<usize>
    requires page_len { length page.now ≡ page_bytes }
    requires data_good { DataGood page.now }
    ensures { result ≡ first_slot (wide low high) page.now (count_of page.now) 0 }
{
    for k in 0..count(page) {
        if is_marked(page, k, low, high) {
            return Some(k);
        }
    }
    None
}

// The first order with the mark of these halves on the Data page at an index.
fn first_order(page: &[u8], index: usize, low: u64, high: u64) -> Option<Order>
    requires page_len { length page.now ≡ page_bytes }
    requires data_good { DataGood page.now }
    ensures { result ≡ first_order (wide low high) index page.now (count_of page.now) }
{
    let k = first_slot(page, low, high)?;
    let at = HEAD_BYTES + slot_off(page, k);
    Some(order_at(page, PageNumber(index as u64), k, at))
}

// What is known after all slots of a Data page: its short payloads are counted, and its first order with the mark is looked for where none is known yet.
fn met_slots(page: &[u8], index: usize, low: u64, high: u64, known: FoundOrder) -> FoundOrder
    requires page_len { length page.now ≡ page_bytes }
    requires data_good { DataGood page.now }
    requires short_bound { known.short + 65536 < 18446744073709551616 }
    ensures { result ≡ both known (slots_found (wide low high) index page.now (count_of page.now)) }
{
    let order = match known.order {
        Some(o) => Some(o),
        None => first_order(page, index, low, high),
    };
    FoundOrder {
        order,
        short: known.short + short_slots(page),
    }
}

// What is known after a page.
fn met_page(page: &[u8], index: usize, low: u64, high: u64, known: FoundOrder) -> FoundOrder
    requires page_len { length page.now ≡ page_bytes }
    requires data_good { type_of page.now ≡ data_type → DataGood page.now }
    requires short_bound { known.short + 65536 < 18446744073709551616 }
    ensures { result ≡ with_page (wide low high) index page.now known }
{
    if kind(page) != DATA_TYPE {
        return known;
    }
    met_slots(page, index, low, high, known)
}

// The first visible order with the mark of these halves, and how many visible payloads are short; or the refusal of the first page that is not good.
pub fn find(
    t: &Tables,
    magic: u64,
    pages: &[u8],
    low: u64,
    high: u64,
) -> Result<FoundOrder, Refused>
    requires { size_wrong pages.now ≡ false }
    ensures { by_number result ≡ order_found magic pages.now (wide low high) }
{
    let mut known = FoundOrder {
        order: None,
        short: 0,
    };
    for i in 0..pages.len() / PAGE_BYTES {
        let e = i * PAGE_BYTES + PAGE_BYTES;
        verify_from(t, magic, &pages[..e], i)?;
        known = met_page(page_at(pages, i), i, low, high, known);
    }
    Ok(known)
}
