// Recovery, and reading a row before it.
#![tactic(auto)]

ghost use Rattle.rules.specs.Lent.{lent};
ghost use Rattle.std.specs.Prelude.{◌≡◌, ◌/◌, ◌≤◌, length};
ghost use Rattle.wal.specs.Walk.{entries, end_of};
ghost use Rattle.rules.specs.Order.{count, is_begin};
ghost use Rattle.rules.specs.Recover.{recover_of};
ghost use Rattle.fates.specs.Fate.{Ordered};
ghost use Rattle.table.specs.Flat.{stride, flat_after};
ghost use Rattle.rules.specs.Row.{row_of, row_payload, located_of};
ghost use Rattle.recovery.specs.Flat.{recover_flat};

use change::Image;
use endian::{Lsn, PageNumber};
use order::Walked;
use rules::{Answer, Located, Record, RowHead};
use table::STRIDE;
use table::inner::records::fill;
use table::inner::{GUESSES, fill_flat};
use tally::Tally;

pub mod inner;
mod judge;
mod row;
mod tableless;

// Of an accepted log: where it ends and its last LSN, and the counts of the answer.
#[derive(Clone, Copy)]
pub struct Judged {
    pub walked: Walked,
    pub tally: Tally,
}

// A verdict, and where the tuple of a slot stands in the log or in the page area; no tuple has no bytes.
#[derive(Clone, Copy)]
pub struct Spot {
    pub number: u64,
    pub place: u64,
    pub image: Image,
}

// Recovery: pages mended, the table filled with one record for each Begin, and the answer.
pub fn recover(magic: u64, floor: Lsn, pages: &mut [u8], log: &[u8], table: &mut [Record]) -> Answer
    ensures value { result ≡ (recover_of (lent magic floor.0 pages.old log.now) table.old).answer }
    ensures pages_after { pages.new ≡ (recover_of (lent magic floor.0 pages.old log.now) table.old).pages }
    ensures table_after { table.new ≡ (recover_of (lent magic floor.0 pages.old log.now) table.old).table }
{
    let a = tableless::recover(magic, floor, pages, log, table.len() as u64);
    fill(log, a, table);
    a
}

// Fills a table of numbers with the records of an accepted log.
fn fill_table(log: &[u8], end: usize, table: &mut [u64])
    requires ordered { Ordered log.now }
    requires log_value { (end_of log.now ≡ end) × (length log.now ≤ 16777216) × (count is_begin (entries log.now) ≤ length table.old / stride) }
    ensures { table.new ≡ flat_after (entries log.now) table.old }
{
    let mut guesses = [0u32; GUESSES];
    fill_flat(log, end, table, &mut guesses[..]);
}

// Recovery with a table of numbers, STRIDE for each record.
pub fn recover_flat(
    magic: u64,
    floor: Lsn,
    pages: &mut [u8],
    log: &[u8],
    table: &mut [u64],
) -> Answer
    ensures value { result ≡ (recover_flat (lent magic floor.0 pages.old log.now) table.old).answer }
    ensures pages_after { pages.new ≡ (recover_flat (lent magic floor.0 pages.old log.now) table.old).pages }
    ensures table_after { table.new ≡ (recover_flat (lent magic floor.0 pages.old log.now) table.old).table }
{
    let records = (table.len() / STRIDE) as u64;
    let a = tableless::recover(magic, floor, pages, log, records);
    if a.number == 0 {
        fill_table(log, a.tail as usize, table);
    }
    a
}

// A row as recovery would leave it: its header.
pub fn read_row(
    magic: u64,
    floor: Lsn,
    pages: &[u8],
    log: &[u8],
    page: PageNumber,
    slot: u16,
) -> RowHead
    ensures { result ≡ row_of (lent magic floor.0 pages.now log.now) page.0 slot }
{
    let s = row::find(magic, floor, pages, log, page.0, slot as usize);
    row::head(log, pages, s)
}

// Its payload, as a part of whichever of log and pages holds the winning image.
pub fn row_payload<'a>(
    magic: u64,
    floor: Lsn,
    pages: &'a [u8],
    log: &'a [u8],
    page: PageNumber,
    slot: u16,
) -> &'a [u8]
    ensures { result.now ≡ row_payload (lent magic floor.0 pages.now log.now) page.0 slot }
{
    let s = row::find(magic, floor, pages, log, page.0, slot as usize);
    let m = s.image;
    row::payload(log, pages, m)
}

// Both at once: the header, and where the payload stands.
pub fn locate_row(
    magic: u64,
    floor: Lsn,
    pages: &[u8],
    log: &[u8],
    page: PageNumber,
    slot: u16,
) -> Located
    ensures { result ≡ located_of (lent magic floor.0 pages.now log.now) page.0 slot }
{
    let s = row::find(magic, floor, pages, log, page.0, slot as usize);
    row::locate(log, pages, s)
}
