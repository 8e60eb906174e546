// The page format: the first fault of a page, slots, visible and cancelled rows, the map of free pages, and the packed page.
#![tactic(auto)]

ghost use Rattle.std.specs.Prelude.{◌≡◌, ◌/◌, length};
ghost use Rattle.page.specs.Fault.{verdict_from, verdict_of};
ghost use Rattle.page.specs.Rows.{shown, rows_of, visible_rows, cancelled_rows, next_row, numbers_per_row, row_list, rows_after};
ghost use Rattle.page.specs.FreeMap.{free_count, map_after};
ghost use Rattle.refusals.specs.Verdict.{told, by_number};

use endian::{Lsn, PageNumber};
use refusals::{Refusal, Refused};

mod faults;
mod granules;
pub mod inner;
mod list;
mod map;
mod rows;
mod writer;

// The bytes of a page, of its header and of its body.
pub const PAGE_BYTES: usize = 16384;

pub const HEAD_BYTES: usize = 64;

pub const BODY_BYTES: usize = 16320;

// Where the fields of a page's header stand.
const MAGIC_AT: usize = 0;

pub const TYPE_AT: usize = 8;

const FLAGS_AT: usize = 9;

const COUNT_AT: usize = 10;

pub const CRC_AT: usize = 12;

const ID_AT: usize = 16;

const LSN_AT: usize = 24;

const FREE_START_AT: usize = 32;

const FREE_END_AT: usize = 34;

pub const RESERVED_AT: usize = 36;

// A page area of more pages is refused by 1.
pub const PAGE_LIMIT: usize = 4096;

// A body has room for no more slots.
pub const SLOT_LIMIT: usize = 4080;

// The bytes of a row header, which is the shortest tuple, and of the longest; and where in a page the xmax and the deleted byte of a tuple at the body's start stand.
pub const ROW_HEAD_BYTES: usize = 24;

pub const LONGEST_TUPLE_BYTES: usize = 16316;

const XMAX_AT: usize = HEAD_BYTES + 8;

const DELETED_AT: usize = HEAD_BYTES + 16;

// Page types. They stay numbers, from 0 to 6: recovery knows these two by name, and a page of any other keeps its number (`PageHead`, `put_front`).
pub const DATA_TYPE: u8 = 1;

pub const FREE_TYPE: u8 = 4;

pub const LAST_TYPE: u8 = 6;

// The first fault of a page, in the order in which they are looked for.
#[derive(Clone, Copy)]
pub enum Fault {
    MagicOrType,
    Id,
    Checksum,
    Count,
    FreeStart,
    FreeEnd,
    Slot(usize),
}

// What a page's header holds besides what the writer works out, and its reserved bytes.
#[derive(Clone, Copy)]
pub struct PageHead {
    pub magic: u64,
    pub kind: u8,
    pub id: PageNumber,
    pub lsn: Lsn,
}

// A row of a listing: its tuple's length, and where in the page area the tuple starts.
#[derive(Clone, Copy)]
pub struct Row {
    pub page: PageNumber,
    pub slot: usize,
    pub length: usize,
    pub offset: usize,
}

// What listing many rows answers: how many rows were given and where to go on.
#[derive(Clone, Copy)]
pub struct RowList {
    pub count: usize,
    pub page: PageNumber,
    pub slot: usize,
}

// Whether every page is good: refusal 1, then the first bad page's, by 11, 17, 18 or 19.
pub fn verify(magic: u64, pages: &[u8]) -> Result<(), Refused>
    ensures { told result ≡ verdict_of magic pages.now }
{
    verify_from(magic, pages, PageNumber(0))
}

// The same of the pages from an index on, so that a caller finds every bad page one after the other. Numbers, places and ids are those of the whole area.
pub fn verify_from(magic: u64, pages: &[u8], first: PageNumber) -> Result<(), Refused>
    ensures { told result ≡ verdict_from magic pages.now first.0 }
{
    let t = crc32c::inner::tables();
    inner::verify_from(&t, magic, pages, first.0 as usize)
}

// The first visible row at or after a slot of a page. Refuses as `verify` does.
pub fn next_visible(
    magic: u64,
    pages: &[u8],
    page: PageNumber,
    slot: usize,
) -> Result<Option<Row>, Refused>
    ensures { by_number result ≡ next_row magic pages.now page.0 slot }
{
    verify(magic, pages)?;
    Ok(inner::next_row(pages, page.0 as usize, slot))
}

// Lists live rows, which are the visible ones, or cancelled ones.
fn list_rows(
    magic: u64,
    pages: &[u8],
    live: bool,
    page: PageNumber,
    slot: usize,
    out: &mut [u64],
) -> Result<RowList, Refused>
    ensures value { by_number result ≡ row_list magic pages.now (rows_of (shown live) pages.now) page.0 slot (length out.old / numbers_per_row) }
    ensures out_after { out.new ≡ rows_after magic pages.now (rows_of (shown live) pages.now) page.0 slot out.old }
{
    let mut notes = [0u8; PAGE_LIMIT];
    inner::verify_noting(magic, pages, &mut notes)?;
    Ok(list::fill(pages, &notes, live, page.0 as usize, slot, out))
}

// Fills the lent numbers with the visible rows at or after a slot of a page, four numbers a row: page, slot, length, offset in the page area; verifies the pages once. Gives
// back how many rows there are, and the place of the first that found no room, or the count of pages and 0 where all are given. Refuses as `verify` does, which leaves the
// numbers as they are.
pub fn list_visible(
    magic: u64,
    pages: &[u8],
    page: PageNumber,
    slot: usize,
    out: &mut [u64],
) -> Result<RowList, Refused>
    ensures value { by_number result ≡ row_list magic pages.now (visible_rows pages.now) page.0 slot (length out.old / numbers_per_row) }
    ensures out_after { out.new ≡ rows_after magic pages.now (visible_rows pages.now) page.0 slot out.old }
{
    list_rows(magic, pages, true, page, slot, out)
}

// The same of the cancelled rows: those that `list_visible` passes over.
pub fn list_cancelled(
    magic: u64,
    pages: &[u8],
    page: PageNumber,
    slot: usize,
    out: &mut [u64],
) -> Result<RowList, Refused>
    ensures value { by_number result ≡ row_list magic pages.now (cancelled_rows pages.now) page.0 slot (length out.old / numbers_per_row) }
    ensures out_after { out.new ≡ rows_after magic pages.now (cancelled_rows pages.now) page.0 slot out.old }
{
    list_rows(magic, pages, false, page, slot, out)
}

// Writes the map of free pages: bit i, lowest bit first, is 1 exactly if page i is free; needed bytes whole, spare bits 0. Refuses as `verify` does,
// then by 16, which leaves the map as it is.
pub fn free_map(magic: u64, pages: &[u8], map: &mut [u8]) -> Result<u64, Refused>
    ensures free_value { by_number result ≡ free_count magic pages.now map.old }
    ensures map_after { map.new ≡ map_after magic pages.now map.old }
{
    verify(magic, pages)?;
    let count = pages.len() / PAGE_BYTES;
    let need = (count + 7) / 8;
    if map.len() < need {
        return Err(Refusal::MapShort.at(0));
    }
    map::fill(pages, map, need);
    Ok(inner::ones(&map[..need]))
}
