// Every refusal of recovery, before anything lent is written.
ghost use Rattle.order.specs.First.{full_of};
ghost use Rattle.recovery.specs.Judgement.{Judgement};

use crate::Judged;
use cells::Scratch;
use checks::PLACES;
use checks::inner::{judge_log, judge_pages, stray};
use crc32c::inner::Tables;
use decide::Changes;
use decide::inner::gather;
use endian::Lsn;
use page::PAGE_BYTES;
use page::inner::size_wrong;
use refusals::{Refusal, Refused};
use room::inner::tight;

// The first refusal, or where the log ends and what it counts; `records` are lent, or no table is.
pub fn judge(
    t: &Tables,
    magic: u64,
    floor: Lsn,
    pages: &[u8],
    log: &[u8],
    records: Option<u64>,
    s: &mut Scratch,
) -> Result<Judged, Refused>
    ensures { Judgement (full_of records) magic floor.0 pages.now log.now s.new result }
{
    // made before any test: docs/DECISIONS.md says why
    let mut begins = [0u32; PLACES];
    let mut ends = [0u32; PLACES];
    if size_wrong(pages) {
        return Err(Refusal::PageArea.at(0));
    }
    let n = pages.len() / PAGE_BYTES;
    let found = judge_log(
        t,
        log,
        n,
        records,
        &mut s.starts,
        &mut s.lasts,
        &mut s.lists,
        &mut s.space,
        &mut begins,
        &mut ends,
    )?;
    let walked = found.walked;
    judge_pages(t, magic, floor, walked.last, pages)?;
    stray(log, walked.end, pages, n, &s.starts, found.beyond)?;
    let tally = gather(log, walked.end, n, &s.lists, &mut s.fronts, &mut s.space);
    let changes = Changes {
        log,
        n,
        lists: &s.lists,
        fronts: &s.fronts,
        space: &s.space,
    };
    tight(&changes, &s.starts, pages)?;
    Ok(Judged { walked, tally })
}
