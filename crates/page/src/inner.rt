// What other crates call with a `requires`: a page's fields, its first fault, the next visible row, the packed page writer, and the bits of a map of free pages.
ghost use Rattle.std.specs.Prelude.{◌≡◌, [], ℕ, true, false, ◌+◌, ◌*◌, ◌-◌, ◌^◌, ◌≤◌, ◌<◌, OnOk, eqb, length, get_or};
ghost use Rattle.std.proofs.Math.Seq.{paste};
ghost use Rattle.crc32c.specs.Crc.{crc32c as crcOfBytes};
ghost use Rattle.page.specs.Layout.{page_bytes, reserved_bytes, body_bytes, page_limit, slot_limit, data_type, pages_in, page_at, magic_of, type_of, count_of, id_of, lsn_of, body_of, slot_off, slot_len};
ghost use Rattle.page.specs.Fault.{data_fault, fault_of, slot_in, slot_rule, refusal_of, late_of, never_late, page_verdict, first_bad, size_wrong, verdict_from, verdict_of};
ghost use Rattle.refusals.specs.Verdict.{told_by, told};
ghost use Rattle.page.specs.Good.{DataGood};
ghost use Rattle.page.specs.Rows.{Listable, cancelled, shown, page_rows, rows_of, visible_rows, first_at};
ghost use Rattle.page.specs.Notes.{Noted};
ghost use Rattle.page.specs.FreeMap.{free_bit, ones_of};
ghost use Rattle.page.specs.Writer.{with_slot, head_of, sealed};

use crate::faults::slots_fault;
use crate::rows::row_on;
use crate::writer::{off_of, put_back, put_front};
use crate::{
    BODY_BYTES, COUNT_AT, CRC_AT, DATA_TYPE, FREE_END_AT, FREE_START_AT, FREE_TYPE, Fault,
    HEAD_BYTES, ID_AT, LAST_TYPE, LSN_AT, MAGIC_AT, PAGE_BYTES, PAGE_LIMIT, PageHead, Row,
    SLOT_LIMIT, TYPE_AT,
};
use crc32c::inner::{Tables, crc32c};
use endian::inner::{copy_in, put_u16, short_at, u16_at, u32_at, u64_at};
use endian::{Lsn, PageNumber};
use refusals::{Refusal, Refused};

// Where in a page the offset and the length of slot 0 stand; a slot has four bytes.
const OFFSETS_AT: usize = HEAD_BYTES;

const LENGTHS_AT: usize = HEAD_BYTES + 2;

pub fn magic(page: &[u8]) -> u64
    requires { length page.now ≡ page_bytes }
    ensures { result ≡ magic_of page.now }
{
    u64_at(page, MAGIC_AT)
}

// The page's type.
pub fn kind(page: &[u8]) -> u8
    requires { length page.now ≡ page_bytes }
    ensures { result ≡ type_of page.now }
{
    page[TYPE_AT]
}

pub fn count(page: &[u8]) -> usize
    requires { length page.now ≡ page_bytes }
    ensures { (result ≡ count_of page.now) × (result < 65536) }
{
    u16_at(page, COUNT_AT) as usize
}

pub fn id(page: &[u8]) -> PageNumber
    requires { length page.now ≡ page_bytes }
    ensures { result.0 ≡ id_of page.now }
{
    PageNumber(u64_at(page, ID_AT))
}

pub fn lsn(page: &[u8]) -> Lsn
    requires { length page.now ≡ page_bytes }
    ensures { result.0 ≡ lsn_of page.now }
{
    Lsn(u64_at(page, LSN_AT))
}

// Where the tuple of slot k starts, counted from the body's start.
pub fn slot_off(page: &[u8], k: usize) -> usize
    requires { (length page.now ≡ page_bytes) × (k < slot_limit) }
    ensures { (result ≡ slot_off (body_of page.now) k) × (result < 65536) }
{
    u16_at(page, OFFSETS_AT + 4 * k) as usize
}

pub fn slot_len(page: &[u8], k: usize) -> usize
    requires { (length page.now ≡ page_bytes) × (k < slot_limit) }
    ensures { (result ≡ slot_len (body_of page.now) k) × (result < 65536) }
{
    u16_at(page, LENGTHS_AT + 4 * k) as usize
}

// The checksum of the page's body.
pub fn checksum(t: &Tables, page: &[u8]) -> u32
    requires page_len { length page.now ≡ page_bytes }
    ensures { result ≡ crcOfBytes (body_of page.now) }
{
    crc32c(t, &page[HEAD_BYTES..])
}

// A page's bytes, as many as a page has.
fn whole(page: &[u8]) -> &[u8; PAGE_BYTES]
    requires { length page.now ≡ page_bytes }
    ensures { result.now ≡ page.now }
{
    &page.as_chunks::<PAGE_BYTES>().0[0]
}

// The first fault of a Data page behind its checksum.
fn data_fault(page: &[u8; PAGE_BYTES]) -> Option<Fault>
    ensures { result ≡ data_fault page.now }
{
    let n = count(page);
    if SLOT_LIMIT < n {
        return Some(Fault::Count);
    }
    let start = u16_at(page, FREE_START_AT) as usize;
    if start != 4 * n {
        return Some(Fault::FreeStart);
    }
    let end = u16_at(page, FREE_END_AT) as usize;
    if end < start {
        return Some(Fault::FreeEnd);
    }
    let behind = BODY_BYTES < end;
    if behind {
        return Some(Fault::FreeEnd);
    }
    slots_fault(page, end, n)
}

// The first fault of the page at an index.
pub fn fault(t: &Tables, magic: u64, index: PageNumber, page: &[u8]) -> Option<Fault>
    requires page_len { length page.now ≡ page_bytes }
    ensures { result ≡ fault_of magic index.0 page.now }
{
    if u64_at(page, MAGIC_AT) != magic {
        return Some(Fault::MagicOrType);
    }
    let k = kind(page);
    if LAST_TYPE < k {
        return Some(Fault::MagicOrType);
    }
    if u64_at(page, ID_AT) != index.0 {
        return Some(Fault::Id);
    }
    if u32_at(page, CRC_AT) != checksum(t, page) {
        return Some(Fault::Checksum);
    }
    if k != DATA_TYPE {
        return None;
    }
    data_fault(whole(page))
}

// Refusal 19 of the field or slot at an offset of the page at an index.
fn slot_rule(index: usize, at: usize) -> Refused
    requires { (page_bytes * index + page_bytes < 2 ^ 64) × (at < page_bytes) }
    ensures { told_by result ≡ slot_rule index at }
{
    Refusal::PageSlots.at(PAGE_BYTES * index + at)
}

impl Fault {
    // What it is refused by where it is the fault of the page at an index.
    fn refused(self, index: usize) -> Refused
        requires { (page_bytes * index + page_bytes < 2 ^ 64) × (slot_in self < slot_limit) }
        ensures { told_by result ≡ refusal_of self index }
    {
        match self {
            Fault::MagicOrType => Refusal::PageMagicOrType.at(index),
            Fault::Id => Refusal::PageId.at(index),
            Fault::Checksum => Refusal::PageChecksum.at(index),
            Fault::Count => slot_rule(index, COUNT_AT),
            Fault::FreeStart => slot_rule(index, FREE_START_AT),
            Fault::FreeEnd => slot_rule(index, FREE_END_AT),
            Fault::Slot(k) => slot_rule(index, OFFSETS_AT + 4 * k),
        }
    }
}

// Whether an LSN is refused: one above a known one, where one is known.
fn is_late(known: Option<Lsn>, lsn: Lsn) -> bool
    ensures { result ≡ late_of known lsn.0 }
{
    known.is_some_and(|k| k < lsn)
}

// What the page at an index is refused by: its fault, then 12.
fn page_verdict(
    t: &Tables,
    magic: u64,
    known: Option<Lsn>,
    index: usize,
    page: &[u8; PAGE_BYTES],
) -> Result<(), Refused>
    requires { page_bytes * index + page_bytes < 2 ^ 64 }
    ensures { told result ≡ page_verdict (late_of known) magic index page.now }
{
    if let Some(f) = fault(t, magic, PageNumber(index as u64), page) {
        return Err(f.refused(index));
    }
    if is_late(known, lsn(page)) {
        return Err(Refusal::PageLsn.at(index));
    }
    Ok(())
}

// The bytes of page i.
pub fn page_at(pages: &[u8], i: usize) -> &[u8; PAGE_BYTES]
    requires { i < pages_in pages.now }
    ensures bytes { result.now ≡ page_at i pages.now }
    ensures page_len { length result.now ≡ page_bytes }
{
    &pages.as_chunks::<PAGE_BYTES>().0[i]
}

// The first refusal of the pages from an index on.
pub fn first_bad(
    t: &Tables,
    magic: u64,
    known: Option<Lsn>,
    pages: &[u8],
    first: usize,
) -> Result<(), Refused>
    ensures { told result ≡ first_bad (late_of known) magic pages.now (pages_in pages.now - first) first }
{
    let count = pages.len() / PAGE_BYTES;
    for i in first..count {
        page_verdict(t, magic, known, i, page_at(pages, i))?;
    }
    Ok(())
}

// Whether page bytes are no multiple of a page's, or too many pages.
pub fn size_wrong(pages: &[u8]) -> bool
    ensures { result ≡ size_wrong pages.now }
{
    if pages.len() % PAGE_BYTES != 0 {
        return true;
    }
    PAGE_LIMIT < pages.len() / PAGE_BYTES
}

// Refusal 1, then those of the pages from an index on, over lent tables.
pub fn verify_from(t: &Tables, magic: u64, pages: &[u8], first: usize) -> Result<(), Refused>
    ensures { told result ≡ verdict_from magic pages.now first }
{
    if size_wrong(pages) {
        return Err(Refusal::PageArea.at(0));
    }
    first_bad(t, magic, None, pages, first)
}

// What is noted of a good page at an index: 1 where it has no cancelled row.
fn note(page: &[u8; PAGE_BYTES], index: usize) -> u8
    requires data_good { type_of page.now ≡ data_type → DataGood page.now }
    requires index_bound { index < 2 ^ 49 }
    ensures { result ≡ 1 → page_rows cancelled index page.now ≡ [] }
{
    match row_on(page, false, false, index, 0) {
        None => 1,
        Some(_) => 0,
    }
}

// The first refusal of the pages. Each is noted once it is judged, while it is at hand.
// Beside `first_bad` it is a loop of its own: a closure for what is done with a good page would take the place of one line, `notes[i] = ..`.
fn first_bad_noting(t: &Tables, magic: u64, pages: &[u8], notes: &mut [u8]) -> Result<(), Refused>
    requires pages_in_bounds { pages_in pages.now ≤ length notes.old }
    ensures value { told result ≡ first_bad never_late magic pages.now (pages_in pages.now - 0) 0 }
    ensures noted { OnOk result (Noted pages.now notes.new (pages_in pages.now)) }
{
    let count = pages.len() / PAGE_BYTES;
    for i in 0..count {
        let page = page_at(pages, i);
        page_verdict(t, magic, None, i, page)?;
        notes[i] = note(page, i);
    }
    Ok(())
}

// Verifies all pages, and notes those that have no cancelled row, for the searches that go through them.
pub fn verify_noting(magic: u64, pages: &[u8], notes: &mut [u8]) -> Result<(), Refused>
    requires { page_limit ≤ length notes.old }
    ensures value { told result ≡ verdict_of magic pages.now }
    ensures noted { OnOk result (Noted pages.now notes.new (pages_in pages.now)) }
{
    let t = crc32c::inner::tables();
    if size_wrong(pages) {
        return Err(Refusal::PageArea.at(0));
    }
    first_bad_noting(&t, magic, pages, notes)
}

// Whether a page is noted.
fn is_noted(notes: &[u8], i: usize) -> bool
    ensures { result ≡ eqb (get_or notes.now i 0) 1 }
{
    notes.get(i).copied().unwrap_or(0) == 1
}

// The first row at or after a slot of the page at an index that a listing shows, on pages that were verified. A search goes on behind the row that it gives.
pub fn next_shown(pages: &[u8], notes: &[u8], live: bool, index: usize, slot: usize) -> Option<Row>
    requires listable { Listable pages.now }
    requires noted { Noted pages.now notes.now (pages_in pages.now) }
    ensures { result ≡ first_at index slot (rows_of (shown live) pages.now) }
{
    let count = pages.len() / PAGE_BYTES;
    let mut k = slot;
    for i in index..count {
        if let Some(row) = row_on(page_at(pages, i), live, is_noted(notes, i), i, k) {
            return Some(row);
        }
        k = 0;
    }
    None
}

// The first visible row of these.
pub fn next_noted(pages: &[u8], notes: &[u8], index: usize, slot: usize) -> Option<Row>
    requires listable { Listable pages.now }
    requires noted { Noted pages.now notes.now (pages_in pages.now) }
    ensures { result ≡ first_at index slot (visible_rows pages.now) }
{
    next_shown(pages, notes, true, index, slot)
}

// The same where nothing is noted.
pub fn next_row(pages: &[u8], index: usize, slot: usize) -> Option<Row>
    requires { Listable pages.now }
    ensures { result ≡ first_at index slot (visible_rows pages.now) }
{
    next_shown(pages, &[0u8; 0], true, index, slot)
}

// Puts tuple into the working page as slot k: its four bytes, and the tuple so that it ends at top of the body. Gives back where it starts.
pub fn put_slot(work: &mut [u8], k: usize, top: usize, tuple: &[u8]) -> usize
    requires { (length work.old ≡ page_bytes) × (4 * k + 4 + length tuple.now ≤ top) × (top ≤ body_bytes) }
    ensures value { result ≡ top - length tuple.now }
    ensures work_after { work.new ≡ with_slot work.old k top tuple.now }
{
    let n = tuple.len();
    let start = top - n;
    put_u16(work, OFFSETS_AT + 4 * k, off_of(n, start));
    put_u16(work, LENGTHS_AT + 4 * k, n as u16);
    copy_in(work, HEAD_BYTES + start, tuple);
    start
}

// Writes the header of the working page over its body of count slots, whose tuples start at top.
pub fn seal(t: &Tables, work: &mut [u8], h: PageHead, reserved: &[u8], count: usize, top: usize)
    requires { (length work.old ≡ page_bytes) × (length reserved.now ≡ reserved_bytes) × (count ≤ slot_limit) × (top ≤ body_bytes) }
    ensures { work.new ≡ sealed (head_of h reserved.now) count top (body_of work.old) }
{
    let crc = checksum(t, work);
    put_front(work, h.magic, h.kind, count, crc);
    put_back(work, h.id, h.lsn, count, top, reserved);
}

// Copies the working page into its own stretch of the page area.
pub fn store(pages: &mut [u8], index: usize, work: &[u8])
    requires { (index * page_bytes + page_bytes ≤ length pages.old) × (length work.now ≡ page_bytes) }
    ensures { pages.new ≡ paste pages.old (index * page_bytes) work.now page_bytes }
{
    copy_in(pages, index * PAGE_BYTES, work);
}

// 1 where page i is lent and free, else 0: a number and no bool, since `map_byte` puts it into a byte as a digit.
pub fn free_bit(pages: &[u8], i: usize) -> u8
    ensures { (result ≡ free_bit pages.now i) × (result ≤ 1) }
{
    if pages.len() / PAGE_BYTES <= i {
        return 0;
    }
    if pages[i * PAGE_BYTES + TYPE_AT] == FREE_TYPE {
        return 1;
    }
    0
}

// How many bits of the bytes of a map are 1: eight bytes at a time, then the rest.
pub fn ones(map: &[u8]) -> u64
    requires { length map.now ≤ 65536 }
    ensures { result ≡ ones_of map.now }
{
    let words = map.len() / 8;
    let mut total: u64 = 0;
    for w in 0..words {
        total += u64_at(map, 8 * w).count_ones() as u64;
    }
    total + short_at(map, 8 * words).count_ones() as u64
}
