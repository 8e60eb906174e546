// A summary written: its length first, then the head and row by row.
ghost use Rattle.std.specs.Prelude.{◌≡◌, ◌+◌, ◌≤◌, length};
ghost use Rattle.page.specs.Fault.{verdict_of};
ghost use Rattle.page.specs.Layout.{pages_in};
ghost use Rattle.page.specs.Rows.{visible_rows};
ghost use Rattle.page.specs.Notes.{Noted};
ghost use Rattle.summary.specs.Summary.{head_of, rows_bytes, summary_file, summary_rows};
ghost use Rattle.summary.specs.Inner.{put};

use crate::Measured;
use crate::numbers::{put_three, three_size};
use crate::reader::EDITION;
use endian::Lsn;
use page::inner::next_noted;

// Pages that are good by a magic, and what was noted of them as they were verified.
#[derive(Clone, Copy)]
pub struct NotedPages<'a> {
    pub magic: u64,
    pub pages: &'a [u8],
    pub notes: &'a [u8],
    ghost good: { (verdict_of magic pages.now).number ≡ 0 },
    ghost noted: { Noted pages.now notes.now (pages_in pages.now) },
}

// How many rows are visible, and how many bytes they take.
pub fn measure(p: NotedPages) -> Measured
    ensures { result ≡ record { rows = length (visible_rows p.entry.pages.now); bytes = length (rows_bytes (summary_rows p.entry.pages.now)) } }
{
    let mut page: usize = 0;
    let mut slot: usize = 0;
    let mut rows: u64 = 0;
    let mut bytes: usize = 0;
    while let Some(row) = next_noted(p.pages, p.notes, page, slot) {
        rows += 1;
        bytes += three_size(row.page.0, row.slot as u64, row.length as u64);
        page = row.page.0 as usize;
        slot = row.slot + 1;
    }
    Measured { rows, bytes }
}

// How many bytes edition, last LSN and row count take.
pub fn head_size(lsn: Lsn, rows: u64) -> usize
    ensures { (result ≡ length (head_of lsn.0 rows)) × (result ≤ 30) }
{
    three_size(EDITION, lsn.0, rows)
}

// Writes the visible rows from a place on. A walk like that of `measure`: what the two share is `next_noted`, and a walk that is handed what to do with a row would keep its state beside a closure.
fn put_rows(p: NotedPages, area: &mut [u8], first: usize)
    requires { first + length (rows_bytes (summary_rows p.pages.now)) ≤ length area.old }
    ensures { area.new ≡ put area.old first (rows_bytes (summary_rows p.entry.pages.now)) }
{
    let mut page: usize = 0;
    let mut slot: usize = 0;
    let mut at = first;
    while let Some(row) = next_noted(p.pages, p.notes, page, slot) {
        at = put_three(area, at, row.page.0, row.slot as u64, row.length as u64);
        page = row.page.0 as usize;
        slot = row.slot + 1;
    }
}

// Writes the whole file, for which there is room.
pub fn put_file(p: NotedPages, lsn: Lsn, rows: u64, area: &mut [u8])
    requires rows_value { rows ≡ length (visible_rows p.pages.now) }
    requires room { length (head_of lsn.0 rows) + length (rows_bytes (summary_rows p.pages.now)) ≤ length area.old }
    ensures { area.new ≡ put area.old 0 (summary_file p.entry.pages.now lsn.0) }
{
    let first = put_three(area, 0, EDITION, lsn.0, rows);
    put_rows(p, area, first);
}
