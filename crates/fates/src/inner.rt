// How a transaction ends, looked up forward from one of its entries, with answers kept; for callers that know the log to be accepted.
ghost use Rattle.std.specs.Prelude.{◌≡◌, true, ◌+◌, ◌*◌, ◌/◌, ◌%◌, ◌≤◌, ◌<◌, length};
ghost use Rattle.endian.specs.Numbers.{number_at};
ghost use Rattle.wal.specs.Walk.{entries, end_of};
ghost use Rattle.wal.specs.Prefix.{said, Stands, Met, onward};
ghost use Rattle.rules.specs.Recover.{outcome_of};
ghost use Rattle.fates.specs.Fate.{Ordered, outcome_number, ending_by, ending_of, Kept, Memo, in_front};

use crate::Outcome;
use endian::TxnNumber;
use endian::inner::u64_at;
use wal::Kind;
use wal::inner::standing;

// How an entry of this type ends its transaction, if it does.
#[tactic(auto, using(crate::proofs::ByKind::ended_by_kind))]
fn ended_by(kind: u8) -> Option<Outcome>
    ensures { outcome_number result ≡ ending_by kind }
{
    match Kind::of(kind) {
        Some(Kind::Commit) => Some(Outcome::Committed),
        Some(Kind::Rollback) => Some(Outcome::RolledBack),
        _ => None,
    }
}

// Looks forward from a place for the end of transaction t.
fn look(log: &[u8], from: usize, end: usize, t: TxnNumber) -> Option<Outcome>
    requires met { Met log.now from }
    requires log_value { end_of log.now ≡ end }
    ensures { outcome_number result ≡ ending_of t.0 (onward log.now from) }
{
    let mut at = from;
    // A step is as long as the entry itself: there is no index to count.
    while at < end {
        let v = standing(log, at);
        if v.txn == t {
            if let Some(outcome) = ended_by(v.kind) {
                return Some(outcome);
            }
        }
        at = at + v.length;
    }
    None
}

// Whether the kept answer v is on transaction t.
fn kept(log: &[u8], v: u32, t: TxnNumber) -> bool
    requires { Kept log.now v }
    ensures { result ≡ true → (0 < v) × (number_at 8 (v / 4 + 12) log.now ≡ t.0) }
{
    v != 0 && TxnNumber(u64_at(log, (v / 4 + 12) as usize)) == t
}

// Keeps the answer v on transaction t, before the one that was kept last on a number of the same remainder.
// Kept (a, fixed memory): an answer is one u32, a place and an outcome; a struct of the two would take twice the room on the stack.
#[tactic(auto, unfolding(crate::specs::Fate::in_front))]
fn keep(memo: &mut [u32; 16384], t: TxnNumber, v: u32)
    ensures { memo.new ≡ in_front t.0 v memo.old }
{
    let i = (t.0 % 8192) as usize;
    memo[i + 8192] = memo[i];
    memo[i] = v;
}

// The answer that is kept of a transaction, of which an entry stands at place.
fn answer(place: usize, outcome: Option<Outcome>) -> u32
    requires { place ≤ 16777216 }
    ensures { result ≡ 4 * place + outcome_number outcome }
{
    let number = match outcome {
        None => 0,
        Some(Outcome::Committed) => 1,
        Some(Outcome::RolledBack) => 2,
    };
    4 * place as u32 + number
}

// The outcome that a kept answer tells.
fn told(v: u32) -> Option<Outcome>
    requires { v % 4 ≤ 2 }
    ensures { outcome_number result ≡ v % 4 }
{
    match v % 4 {
        1 => Some(Outcome::Committed),
        2 => Some(Outcome::RolledBack),
        _ => None,
    }
}

// The outcome of transaction t, of which an entry stands at place; none where it has not ended. Two answers are kept for each remainder.
pub fn fate(
    log: &[u8],
    place: usize,
    t: TxnNumber,
    end: usize,
    memo: &mut [u32; 16384],
) -> Option<Outcome>
    requires met { Met log.now place }
    requires stands { Stands log.now place }
    requires ordered { Ordered log.now }
    requires memo { Memo log.now memo.old }
    requires log_value { (end_of log.now ≡ end) × (t.0 ≡ (said log.now place).txn) × (0 < t.0) × (length log.now ≤ 16777216) }
    ensures value { outcome_number result ≡ outcome_of (entries log.now) t.0 }
    ensures memo_2 { Memo log.now memo.new }
{
    let i = (t.0 % 8192) as usize;
    let v = memo[i];
    if kept(log, v, t) {
        return told(v);
    }
    let w = memo[i + 8192];
    if kept(log, w, t) {
        keep(memo, t, w);
        return told(w);
    }
    let outcome = look(log, place, end, t);
    keep(memo, t, answer(place, outcome));
    outcome
}

// Keeps the outcome of transaction t where its ending, an entry of this type, stands at place. A walk backward meets it before the changes of t, and need not look for it.
pub fn recall(log: &[u8], place: usize, kind: u8, t: TxnNumber, memo: &mut [u32; 16384])
    requires met { Met log.now place }
    requires stands { Stands log.now place }
    requires ordered { Ordered log.now }
    requires memo { Memo log.now memo.old }
    requires kind_value { (kind ≡ (said log.now place).kind) × (t.0 ≡ (said log.now place).txn) × (length log.now ≤ 16777216) }
    ensures { Memo log.now memo.new }
{
    if t == TxnNumber(0) {
        return;
    }
    if let Some(outcome) = ended_by(kind) {
        keep(memo, t, answer(place, Some(outcome)));
    }
}
