// Judging repaired files: whether the pages after hold what recovery of the pages before would leave, and else the lowest page and slot that differs.
#![tactic(auto)]

ghost use Rattle.std.specs.Prelude.{◌≡◌};
ghost use Rattle.rules.specs.Lent.{lent};
ghost use Rattle.audit.specs.Judge.{judge_from, judge_of};

use cells::Scratch;
use crc32c::inner::tables;
use endian::{Lsn, PageNumber};
use refusals::Verdict;

mod areas;
mod bytes;
mod pages;

// A refusal, or whether a page differs; the lowest such page and its lowest slot that does, 0 for an untouched page or a difference in the header.
// Kept (a): `audit Judge.judge_from` and C `lq_judge` hold it.
#[derive(Clone, Copy)]
pub struct Finding {
    pub verdict: Verdict,
    pub differs: bool,
    pub page: PageNumber,
    pub slot: usize,
}

// One page: whether it has no fault after, and then in what it differs.
#[derive(Clone, Copy)]
struct PageJudged {
    sound: bool,
    finding: Finding,
}

// Judges the pages from an index on, so that a caller finds every page that differs one after the other. All that is lent is looked at for refusals.
pub fn judge_from(
    magic: u64,
    floor: Lsn,
    before: &[u8],
    log: &[u8],
    after: &[u8],
    first: PageNumber,
) -> Finding
    ensures { result ≡ judge_from (lent magic floor.0 before.now log.now) after.now first.0 }
{
    let t = tables();
    let mut s = Scratch {
        starts: [0u32; 4097],
        lasts: [0u32; 4096],
        lists: [0u32; 4097],
        fronts: [0u32; 4096],
        space: [0u8; 655360],
    };
    areas::judge(
        &t,
        magic,
        floor,
        before,
        log,
        after,
        first.0 as usize,
        &mut s,
    )
}

// Judges all pages.
pub fn judge(magic: u64, floor: Lsn, before: &[u8], log: &[u8], after: &[u8]) -> Finding
    ensures { result ≡ judge_of (lent magic floor.0 before.now log.now) after.now }
{
    judge_from(magic, floor, before, log, after, PageNumber(0))
}
