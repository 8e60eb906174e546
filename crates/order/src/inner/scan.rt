// The walk with checksums and rules 5, 6, 7 and 10, which also tests rule 8 as long as it is sure of it.
ghost use Rattle.std.specs.Prelude.{◌≡◌, ◌+◌, ◌^◌, ◌<◌, Some, length, eqb};
ghost use Rattle.wal.specs.Entry.{entry_of, begin};
ghost use Rattle.wal.proofs.WalkLaws.{EntryAt};
ghost use Rattle.refusals.specs.Verdict.{fault_number};
ghost use Rattle.rules.specs.Shape.{both};
ghost use Rattle.rules.specs.Order.{one};
ghost use Rattle.wal.specs.Prefix.{before};
ghost use Rattle.order.specs.First.{reach, full_of, stop_of};
ghost use Rattle.order.specs.Scanning.{early_fault, ended, Sees, Scanned};
ghost use Rattle.order.specs.Blocks.{FirstWrong, every_number};

use crate::inner::kinds::{is_begin, is_known};
use crate::inner::turn::{TURNS, turn};
use crate::{Scan, Seen, Walked};
use change::shape::shaped;
use crc32c::inner::Tables;
use endian::{Lsn, TxnNumber};
use refusals::{Refusal, Refused};
use wal::inner::entry_at;
use wal::{EntryView, FIRST, Reading};

// Refusals 5 to 7 of an entry in turn.
fn early_fault(log: &[u8], v: EntryView, last: Lsn) -> Result<(), Refusal>
    requires { EntryAt log.now v.place v }
    ensures { fault_number result ≡ early_fault last.0 (entry_of log.now v) }
{
    if !is_known(v.kind) {
        return Err(Refusal::EntryType);
    }
    if !shaped(log, v) {
        return Err(Refusal::EntryShape);
    }
    let stale = v.lsn <= last;
    if stale {
        return Err(Refusal::LsnOrder);
    }
    Ok(())
}

// Whether an entry of this type needs a record and there is none left after so many Begins.
fn no_record(records: Option<u64>, begins: u64, kind: u8) -> bool
    ensures { result ≡ both (eqb kind begin) (full_of records begins) }
{
    is_begin(kind) && records.is_some_and(|n| n <= begins)
}

// What the walk ends with at a place, after an LSN: refusal 4 where it ends in damage.
fn ended(found: Reading, place: usize, last: Lsn) -> Result<Walked, Refused>
    ensures { result ≡ ended found place last }
{
    match found {
        Reading::Damage => Err(Refusal::EntryDamaged.at(place)),
        _ => Ok(Walked { end: place, last }),
    }
}

// What was seen, with one entry more.
fn counted(w: Seen, v: EntryView) -> Seen
    requires { w.begins < 2 ^ 62 }
    ensures { (result.last ≡ v.lsn) × (result.begins ≡ w.begins + one (eqb v.kind begin)) }
{
    Seen {
        last: v.lsn,
        begins: w.begins + u64::from(is_begin(v.kind)),
    }
}

// The walk. A step is as long as its entry, so there is no index to count; `let .. else` is the form of docs/ARCHITECTURE.md.
pub fn scan(t: &Tables, log: &[u8], records: Option<u64>) -> Scan
    requires log_len_bound { length log.now < reach }
    ensures scanned { Scanned (full_of records) log.now result.found result.stop }
    ensures sees { Sees (before log.now (stop_of result.found)) result.seen }
    ensures first_wrong { (h : TxnNumber) → result.turns ≡ Some h → FirstWrong log.now every_number result.stop result.stop }
{
    let mut at = FIRST;
    let mut seen = Seen {
        last: Lsn(0),
        begins: 0,
    };
    let mut turns = Some(TxnNumber(0));
    let mut opens = [0u32; TURNS];
    loop {
        let found = entry_at(t, log, at);
        let Reading::Whole(v) = found else {
            return Scan {
                found: ended(found, at, seen.last),
                stop: at,
                seen,
                turns,
            };
        };
        if let Err(refusal) = early_fault(log, v, seen.last) {
            return Scan {
                found: Err(refusal.at(at)),
                stop: at,
                seen,
                turns,
            };
        }
        turns = turn(log, v, turns, &mut opens);
        let next = at + v.length;
        if no_record(records, seen.begins, v.kind) {
            return Scan {
                found: Err(Refusal::NoRecord.at(at)),
                stop: next,
                seen,
                turns,
            };
        }
        seen = counted(seen, v);
        at = next;
    }
}
