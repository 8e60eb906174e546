// Recovery but for its table: judged, counted, mended.
ghost use Rattle.rules.specs.Lent.{lent};
ghost use Rattle.std.specs.Prelude.{◌≡◌, []};
ghost use Rattle.rules.specs.Order.{full_at};
ghost use Rattle.rules.specs.Recover.{recover_verdict, recover_by, refused};
ghost use Rattle.refusals.specs.Verdict.{verdict};
ghost use Rattle.recovery.specs.Judgement.{answer_from};

use crate::judge::judge;
use cells::Scratch;
use crc32c::inner::{Tables, tables};
use decide::Changes;
use endian::Lsn;
use mend::inner::mend_all;
use page::PAGE_BYTES;
use rules::Answer;
use tally::Tally;
use wal::inner::ending_at;

// The answer of a refusal.
fn refused_by(number: u64, place: u64) -> Answer
    ensures { result ≡ refused (verdict number place) }
{
    Answer {
        number: number,
        place: place,
        last_lsn: Lsn(0),
        tail: 0,
        committed: 0,
        rolled_back: 0,
        unended: 0,
        changes_committed: 0,
        changes_rolled_back: 0,
        changes_unended: 0,
        changes_zero: 0,
        rewritten: 0,
        ending: 0,
    }
}

// The answer of a recovery that is done.
fn done_by(last: Lsn, end: usize, ending: u64, c: Tally, rewritten: u64) -> Answer
    ensures { result ≡ answer_from last end ending c rewritten }
{
    Answer {
        number: 0,
        place: 0,
        last_lsn: last,
        tail: end as u64,
        committed: c.committed,
        rolled_back: c.rolled_back,
        unended: c.unended,
        changes_committed: c.changes_committed,
        changes_rolled_back: c.changes_rolled_back,
        changes_unended: c.changes_unended,
        changes_zero: c.changes_zero,
        rewritten: rewritten,
        ending: ending,
    }
}

// Judges, and where nothing is refused mends.
fn run(
    t: &Tables,
    magic: u64,
    floor: Lsn,
    pages: &mut [u8],
    log: &[u8],
    records: u64,
    s: &mut Scratch,
) -> Answer
    ensures value { result ≡ (recover_by (recover_verdict (full_at records) (lent magic floor.0 pages.old log.now)) pages.old log.now []).answer }
    ensures pages_after { pages.new ≡ (recover_by (recover_verdict (full_at records) (lent magic floor.0 pages.old log.now)) pages.old log.now []).pages }
{
    let j = match judge(t, magic, floor, pages, log, Some(records), s) {
        Ok(j) => j,
        Err(e) => return refused_by(e.refusal.number(), e.place),
    };
    let n = pages.len() / PAGE_BYTES;
    let changes = Changes {
        log,
        n,
        lists: &s.lists,
        fronts: &s.fronts,
        space: &s.space,
    };
    let rewritten = mend_all(t, &changes, &s.starts, &s.lasts, pages);
    let w = j.walked;
    let ending = ending_at(log, w.end).number();
    done_by(w.last, w.end, ending, j.tally, rewritten)
}

// Recovery for a table of so many records, which is not written.
pub fn recover(magic: u64, floor: Lsn, pages: &mut [u8], log: &[u8], records: u64) -> Answer
    ensures value { result ≡ (recover_by (recover_verdict (full_at records) (lent magic floor.0 pages.old log.now)) pages.old log.now []).answer }
    ensures pages_after { pages.new ≡ (recover_by (recover_verdict (full_at records) (lent magic floor.0 pages.old log.now)) pages.old log.now []).pages }
{
    let t = tables();
    let mut s = Scratch {
        starts: [0u32; 4097],
        lasts: [0u32; 4096],
        lists: [0u32; 4097],
        fronts: [0u32; 4096],
        space: [0u8; 655360],
    };
    run(&t, magic, floor, pages, log, records, &mut s)
}
