// The walks over the log, the pass over the pages, and the walk for changes to pages that cannot take them.
ghost use Rattle.std.specs.Prelude.{◌≡◌, true, false, ◌+◌, ◌*◌, ◌≤◌, ◌<◌, length, get_or};
ghost use Rattle.wal.specs.Read.{first};
ghost use Rattle.wal.specs.Walk.{entries, end_of};
ghost use Rattle.wal.specs.Prefix.{Stands, said};
ghost use Rattle.page.specs.Layout.{page_bytes, type_at, data_type, pages_in};
ghost use Rattle.refusals.specs.Verdict.{told};
ghost use Rattle.rules.specs.Shape.{is_shaped};
ghost use Rattle.rules.specs.Recover.{pages_from, is_stray, stray_from};
ghost use Rattle.cells.specs.Cell.{Starts};
ghost use Rattle.cells.specs.Measure.{Sound, FirstBeyond};
ghost use Rattle.order.specs.First.{full_of, stop_of};
ghost use Rattle.checks.specs.Judged.{Judged, OfData};

use crate::{Found, PLACES};
use cells::inner::{measure, page_at};
use change::inner::is_change;
use clash::inner::clash;
use crc32c::inner::Tables;
use endian::Lsn;
use order::Walked;
use order::inner::walk;
use page::inner::first_bad;
use page::{DATA_TYPE, PAGE_BYTES, TYPE_AT};
use refusals::{Refusal, Refused};
use wal::inner::standing;
use wal::{FIRST, header_fault};

// Where a walk stops.
fn stop_of(walked: Result<Walked, Refused>) -> usize
    ensures { result ≡ stop_of walked }
{
    match walked {
        Ok(w) => w.end,
        Err(e) => e.place as usize,
    }
}

// Refusals 2 to 10 of a log, over n pages. Where the walk meets a refusal, clashes are looked for before it.
pub fn judge_log(
    t: &Tables,
    log: &[u8],
    n: usize,
    records: Option<u64>,
    starts: &mut [u32; 4097],
    lasts: &mut [u32; 4096],
    lists: &mut [u32; 4097],
    space: &mut [u8; 655360],
    begins: &mut [u32; PLACES],
    ends: &mut [u32; PLACES],
) -> Result<Found, Refused>
    requires { n ≤ 4096 }
    ensures { Judged (full_of records) log.now n starts.new lasts.new lists.new result }
{
    if let Err(refusal) = header_fault(log) {
        return Err(refusal.at(0));
    }
    let walked = walk(t, log, records, &mut begins[..], &mut ends[..]);
    let stop = stop_of(walked);
    let beyond = measure(log, stop, n, starts, lasts, lists);
    let at = clash(log, stop, n, beyond, starts, space);
    if at < stop {
        return Err(Refusal::Clash.at(at));
    }
    match walked {
        Ok(walked) => Ok(Found { walked, beyond }),
        Err(e) => Err(e),
    }
}

// Page by page, the page's fault (11, 17, 18, 19), then 12, by the floor and the last LSN.
pub fn judge_pages(
    t: &Tables,
    magic: u64,
    floor: Lsn,
    last: Lsn,
    pages: &[u8],
) -> Result<(), Refused>
    ensures { told result ≡ pages_from magic floor.0 last.0 pages.now (pages_in pages.now) 0 }
{
    if floor < last {
        return first_bad(t, magic, Some(last), pages, 0);
    }
    first_bad(t, magic, Some(floor), pages, 0)
}

// Whether the entry at `at` changes a page beyond the n lent ones or not of type 1.
fn is_stray(log: &[u8], at: usize, kind: u8, pages: &[u8], n: usize) -> bool
    requires stands { Stands log.now at }
    requires kind_value { (kind ≡ (said log.now at).kind) × (is_shaped (said log.now at) ≡ true) × (n ≡ pages_in pages.now) }
    ensures { result ≡ is_stray pages.now (said log.now at) }
{
    if !is_change(kind) {
        return false;
    }
    let i = page_at(log, at, n);
    if n <= i {
        return true;
    }
    let kind = pages[i * PAGE_BYTES + TYPE_AT];
    kind != DATA_TYPE
}

// The first such entry is refused.
fn first_stray(log: &[u8], end: usize, pages: &[u8], n: usize) -> Result<(), Refused>
    requires log_value { (end_of log.now ≡ end) × (n ≡ pages_in pages.now) }
    requires sound { Sound log.now end }
    ensures { told result ≡ stray_from pages.now (entries log.now) first }
{
    let mut at = FIRST;
    // a step is as long as the entry: there is no index to count
    while at < end {
        let v = standing(log, at);
        if is_stray(log, at, v.kind, pages, n) {
            return Err(Refusal::NoDataPage.at(at));
        }
        at += v.length;
    }
    Ok(())
}

// Whether page i is touched and not of type 1.
fn is_other(pages: &[u8], starts: &[u32; 4097], i: usize) -> bool
    requires { (i < pages_in pages.now) × (i < 4096) }
    ensures { result ≡ false → (get_or starts.now i 0 ≡ get_or starts.now (i + 1) 0 → ⊥) → get_or pages.now (i * page_bytes + type_at) 0 ≡ data_type }
{
    if starts[i] == starts[i + 1] {
        return false;
    }
    let kind = pages[i * PAGE_BYTES + TYPE_AT];
    kind != DATA_TYPE
}

// Whether each touched one of the n pages is of type 1.
fn of_data(pages: &[u8], n: usize, starts: &[u32; 4097]) -> bool
    requires { (n ≡ pages_in pages.now) × (n ≤ 4096) }
    ensures { result ≡ true → OfData pages.now n starts.now }
{
    for i in 0..n {
        if is_other(pages, starts, i) {
            return false;
        }
    }
    true
}

// Refusal 13: the first change to a page that cannot take it. The log is walked only where there is one; beyond is the place of the first change beyond the n pages.
pub fn stray(
    log: &[u8],
    end: usize,
    pages: &[u8],
    n: usize,
    starts: &[u32; 4097],
    beyond: usize,
) -> Result<(), Refused>
    requires log_value { (end_of log.now ≡ end) × (n ≡ pages_in pages.now) × (n ≤ 4096) }
    requires sound { Sound log.now end }
    requires starts { Starts (entries log.now) n starts.now }
    requires first_beyond { FirstBeyond log.now end n beyond }
    ensures { told result ≡ stray_from pages.now (entries log.now) first }
{
    if beyond == end && of_data(pages, n, starts) {
        return Ok(());
    }
    first_stray(log, end, pages, n)
}
