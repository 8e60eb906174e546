// The first visible, or the first cancelled, row of a page at or after a slot, on a page that is good.
ghost use Rattle.std.specs.Prelude.{◌≡◌, true, false, [], ◌^◌, ◌<◌, Some, None, length};
ghost use Rattle.endian.specs.Pick.{pick};
ghost use Rattle.page.specs.Layout.{page_bytes, slot_limit, data_type, type_of, body_of, count_of, slot_len, slot_at};
ghost use Rattle.page.specs.Good.{DataGood};
ghost use Rattle.page.specs.Rows.{visible, cancelled, shown, row, slot_rows, page_rows, first_at};
ghost use Rattle.page.specs.Notes.{NoneCancelled};

use crate::inner::{count, kind, slot_len, slot_off};
use crate::{DATA_TYPE, DELETED_AT, HEAD_BYTES, PAGE_BYTES, Row, XMAX_AT};
use endian::PageNumber;
use endian::inner::u64_at;

// Whether the tuple of slot k, which has one, is a visible row.
fn is_visible(page: &[u8; PAGE_BYTES], k: usize) -> bool
    requires data_good { DataGood page.now }
    requires k_bound { (k < count_of page.now) × (0 < slot_len (body_of page.now) k) }
    ensures { result ≡ visible (slot_at page.now k) }
{
    let o = slot_off(page, k);
    let deleted = page[DELETED_AT + o] != 0;
    if deleted {
        return false;
    }
    u64_at(page, XMAX_AT + o) == 0
}

// Whether a listing shows the tuple of slot k, which has one. It is not looked at on a page that is noted.
// `live` stays a bool, from the listing down to here: an enum of visible and cancelled rows would be compared with one of its names in the line below, and a closure would be called on its left side.
fn is_shown(page: &[u8; PAGE_BYTES], live: bool, noted: bool, k: usize) -> bool
    requires data_good { DataGood page.now }
    requires k_bound { (k < count_of page.now) × (0 < slot_len (body_of page.now) k) }
    requires none_cancelled { noted ≡ true → NoneCancelled page.now }
    ensures { result ≡ shown live (slot_at page.now k) }
{
    (noted || is_visible(page, k)) == live
}

// The length of the tuple of slot k where a listing shows it.
fn shown_len(page: &[u8; PAGE_BYTES], live: bool, noted: bool, k: usize) -> Option<usize>
    requires data_good { DataGood page.now }
    requires k_bound { k < count_of page.now }
    requires none_cancelled { noted ≡ true → NoneCancelled page.now }
    ensures { result ≡ pick (shown live (slot_at page.now k)) (Some (length (slot_at page.now k))) None }
{
    let n = slot_len(page, k);
    if n == 0 {
        return None;
    }
    if is_shown(page, live, noted, k) {
        return Some(n);
    }
    None
}

// The row in slot k of the page at an index, whose tuple has so many bytes.
fn row_in(page: &[u8; PAGE_BYTES], index: usize, k: usize, len: usize) -> Row
    requires k_bound { k < slot_limit }
    requires index_bound { index < 2 ^ 49 }
    requires len_value { len ≡ length (slot_at page.now k) }
    ensures { result ≡ row index k page.now }
{
    let o = slot_off(page, k);
    Row {
        page: PageNumber(index as u64),
        slot: k,
        length: len,
        offset: index * PAGE_BYTES + (HEAD_BYTES + o),
    }
}

// The first row of a Data page at or after a slot that a listing shows.
fn row_of(
    page: &[u8; PAGE_BYTES],
    live: bool,
    noted: bool,
    index: usize,
    slot: usize,
) -> Option<Row>
    requires data_good { DataGood page.now }
    requires none_cancelled { noted ≡ true → NoneCancelled page.now }
    requires index_bound { index < 2 ^ 49 }
    ensures { result ≡ first_at index slot (slot_rows (shown live) index page.now (count_of page.now) 0) }
{
    let n = count(page);
    for k in slot..n {
        if let Some(len) = shown_len(page, live, noted, k) {
            return Some(row_in(page, index, k, len));
        }
    }
    None
}

// The first row of a page at or after a slot that a listing shows.
pub fn row_on(
    page: &[u8; PAGE_BYTES],
    live: bool,
    noted: bool,
    index: usize,
    slot: usize,
) -> Option<Row>
    requires data_good { type_of page.now ≡ data_type → DataGood page.now }
    requires page_value { noted ≡ true → page_rows cancelled index page.now ≡ [] }
    requires index_bound { index < 2 ^ 49 }
    ensures { result ≡ first_at index slot (page_rows (shown live) index page.now) }
{
    if kind(page) != DATA_TYPE {
        return None;
    }
    row_of(page, live, noted, index, slot)
}
