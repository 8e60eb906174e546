// The visible orders of pages that were verified, one after the other, each by its place: its page, its slot and where its tuple starts, in one number.
ghost use Rattle.std.specs.Prelude.{◌≡◌, ◌+◌, ◌*◌, ◌<◌, ◌≤◌, length, eqb};
ghost use Rattle.endian.specs.Numbers.{number_at};
ghost use Rattle.page.specs.Rows.{Listable};
ghost use Rattle.intake.specs.Places.{place_of, tuple_at, order_at, low_at, high_at, wide, Place, Met};

use crate::{ORDER_BYTES, Order};
use endian::PageNumber;
use endian::inner::{u32_at, u64_at};
use page::inner::next_row;
use page::{ROW_HEAD_BYTES, Row};

// A place: page, then slot, then offset.
const SLOT_SPAN: u64 = 4096;

const OFFSET_SPAN: u64 = 4294967296;

// Where the two halves of the mark, the part number and the quantity of a tuple stand.
const LOW_AT: usize = ROW_HEAD_BYTES;

const HIGH_AT: usize = ROW_HEAD_BYTES + 8;

const PART_AT: usize = ROW_HEAD_BYTES + 16;

const QUANTITY_AT: usize = ROW_HEAD_BYTES + 20;

// The bytes of the shortest tuple that is an order.
pub const TUPLE_BYTES: usize = ROW_HEAD_BYTES + ORDER_BYTES;

// A step to the next order: its place, and the page and slot to go on from.
#[derive(Clone, Copy)]
pub struct NextOrder {
    pub place: u64,
    pub page: usize,
    pub slot: usize,
}

// Whether the tuple at an offset has that mark.
pub fn has_mark(pages: &[u8], at: usize, low: u64, high: u64) -> bool
    requires { at + 48 ≤ length pages.now }
    ensures { result ≡ eqb (number_at 16 (at + 24) pages.now) (wide low high) }
{
    u64_at(pages, at + LOW_AT) == low && u64_at(pages, at + HIGH_AT) == high
}

// The order of a slot whose tuple starts at an offset.
pub fn order_at(pages: &[u8], page: PageNumber, slot: usize, at: usize) -> Order
    requires { at + 48 ≤ length pages.now }
    ensures { result ≡ record { page = page; slot = slot; part = number_at 4 (at + 40) pages.now; quantity = number_at 4 (at + 44) pages.now } }
{
    Order {
        page,
        slot,
        part: u32_at(pages, at + PART_AT),
        quantity: u32_at(pages, at + QUANTITY_AT),
    }
}

fn place_of(row: Row) -> u64
    requires { (row.page.0 < 65536) × (row.slot < 4096) × (row.offset < 4294967296) }
    ensures { result ≡ place_of row }
{
    (row.page.0 * SLOT_SPAN + row.slot as u64) * OFFSET_SPAN + row.offset as u64
}

// Where the tuple of a place starts.
pub fn tuple_at(x: u64) -> usize
    ensures { result ≡ tuple_at x }
{
    (x % OFFSET_SPAN) as usize
}

// The halves of the mark of the order at a place.
pub fn low_at(pages: &[u8], x: u64) -> u64
    requires { Place pages.now x }
    ensures { result ≡ low_at pages.now x }
{
    u64_at(pages, tuple_at(x) + LOW_AT)
}

pub fn high_at(pages: &[u8], x: u64) -> u64
    requires { Place pages.now x }
    ensures { result ≡ high_at pages.now x }
{
    u64_at(pages, tuple_at(x) + HIGH_AT)
}

// The order at a place.
pub fn order_of(pages: &[u8], x: u64) -> Order
    requires { Place pages.now x }
    ensures { result ≡ order_at pages.now x }
{
    let slot = x / OFFSET_SPAN;
    order_at(
        pages,
        PageNumber(slot / SLOT_SPAN),
        (slot % SLOT_SPAN) as usize,
        tuple_at(x),
    )
}

// The first order at or after a slot of the page at an index.
pub fn next_order(pages: &[u8], index: usize, slot: usize) -> Option<NextOrder>
    requires listable { Listable pages.now }
    requires pages_len_bound { length pages.now ≤ 1073741824 }
    ensures { Met pages.now index slot result }
{
    let mut i = index;
    let mut k = slot;
    while let Some(row) = next_row(pages, i, k) {
        i = row.page.0 as usize;
        k = row.slot + 1;
        if TUPLE_BYTES <= row.length {
            return Some(NextOrder {
                place: place_of(row),
                page: i,
                slot: k,
            });
        }
    }
    None
}
