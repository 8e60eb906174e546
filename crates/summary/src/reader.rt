// A summary read: its head, then row by row.
ghost use Rattle.std.specs.Prelude.{◌≡◌, get_or, suc};
ghost use Rattle.refusals.specs.Verdict.{answered, by_number, told};
ghost use Rattle.summary.specs.Summary.{edition_rule, head_verdict, length_rule, no_row, page_rule, row_step, rows_verdict, slot_rule, step_of, step_rows, step_verdict, summary_in};
ghost use Rattle.summary.specs.Inner.{number_at, judged_row};

use crate::numbers::read;
use crate::{Number, Summary, SummaryRow, SummaryStep};
use endian::{Lsn, PageNumber};
use page::{LONGEST_TUPLE_BYTES, PAGE_LIMIT, ROW_HEAD_BYTES, SLOT_LIMIT};
use refusals::{Refusal, Refused};

// The edition that is written and read.
pub const EDITION: u64 = 1;

// ---- the head

fn edition(file: &[u8]) -> Result<Number, Refused>
    ensures { by_number result ≡ number_at edition_rule file.now 0 }
{
    let n = read(file, 0)?;
    if n.value != EDITION {
        return Err(Refusal::SummaryEdition.at(0));
    }
    Ok(n)
}

// Edition, last LSN and row count, and where the first row stands.
pub fn head(file: &[u8]) -> Result<Summary, Refused>
    ensures { by_number result ≡ answered (head_verdict file.now) (summary_in file.now) }
{
    let e = edition(file)?;
    let l = read(file, e.after)?;
    let c = read(file, l.after)?;
    Ok(Summary {
        lsn: Lsn(l.value),
        count: c.value,
        first: c.after,
    })
}

// ---- the rows

// The page of a row behind one of this page.
fn page_at(file: &[u8], at: usize, page: u64) -> Result<Number, Refused>
    ensures { by_number result ≡ number_at (page_rule page) file.now at }
{
    let n = read(file, at)?;
    if PAGE_LIMIT as u64 <= n.value {
        return Err(Refusal::SummaryRange.at(at));
    }
    if n.value < page {
        return Err(Refusal::SummaryOrder.at(at));
    }
    Ok(n)
}

// The slot of a row on a page, which may be that of the row before, whose slots behind it start at slot.
fn slot_at(file: &[u8], at: usize, page: u64, slot: u64, own: u64) -> Result<Number, Refused>
    ensures { by_number result ≡ number_at (slot_rule page slot own) file.now at }
{
    let n = read(file, at)?;
    if SLOT_LIMIT as u64 <= n.value {
        return Err(Refusal::SummaryRange.at(at));
    }
    if own == page && n.value < slot {
        return Err(Refusal::SummaryOrder.at(at));
    }
    Ok(n)
}

fn length_at(file: &[u8], at: usize) -> Result<Number, Refused>
    ensures { by_number result ≡ number_at length_rule file.now at }
{
    let n = read(file, at)?;
    if n.value < ROW_HEAD_BYTES as u64 {
        return Err(Refusal::SummaryRange.at(at));
    }
    if (LONGEST_TUPLE_BYTES as u64) < n.value {
        return Err(Refusal::SummaryRange.at(at));
    }
    Ok(n)
}

// The row at a place, which has to stand at or after a slot of a page.
fn judged_row(file: &[u8], at: usize, page: u64, slot: u64) -> Result<SummaryStep, Refused>
    ensures { by_number result ≡ judged_row page slot file.now at }
{
    let own_page = page_at(file, at, page)?;
    let own_slot = slot_at(file, own_page.after, page, slot, own_page.value)?;
    let length = length_at(file, own_slot.after)?;
    Ok(SummaryStep {
        row: SummaryRow {
            page: PageNumber(own_page.value),
            slot: own_slot.value,
            length: length.value,
        },
        after: length.after,
    })
}

// All rows from a place on, and that nothing stands behind them.
pub fn judge(file: &[u8], count: u64, first: usize) -> Result<(), Refused>
    ensures { told result ≡ rows_verdict count 0 0 file.now first }
{
    let mut at = first;
    let mut page: u64 = 0;
    let mut slot: u64 = 0;
    for _ in 0..count {
        let s = judged_row(file, at, page, slot)?;
        page = s.row.page.0;
        slot = s.row.slot + 1;
        at = s.after;
    }
    if at < file.len() {
        return Err(Refusal::SummaryLeftOver.at(at));
    }
    Ok(())
}

// ---- single rows

// The row at a place, whatever its numbers are, and the place after it.
fn unjudged_row(file: &[u8], at: usize) -> Result<SummaryStep, Refused>
    ensures { by_number result ≡ answered (step_verdict file.now at) (row_step file.now at) }
{
    let p = read(file, at)?;
    let s = read(file, p.after)?;
    let l = read(file, s.after)?;
    Ok(SummaryStep {
        row: SummaryRow {
            page: PageNumber(p.value),
            slot: s.value,
            length: l.value,
        },
        after: l.after,
    })
}

// The row at a place, and the place after it. Where a number does not read it answers zeros and the same place, and no None: the clause of `summary::step` says so.
pub fn step(file: &[u8], at: usize) -> SummaryStep
    ensures { result ≡ step_of file.now at }
{
    let stays = SummaryStep {
        row: SummaryRow {
            page: PageNumber(0),
            slot: 0,
            length: 0,
        },
        after: at,
    };
    unjudged_row(file, at).unwrap_or(stays)
}

// The row n steps behind the row at a place.
pub fn nth(file: &[u8], first: usize, n: u64) -> SummaryRow
    ensures { result ≡ get_or (step_rows (suc n) file.now first) n no_row }
{
    let mut at = first;
    for _ in 0..n {
        at = step(file, at).after;
    }
    step(file, at).row
}
