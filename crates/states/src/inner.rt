// The state of a transaction, by its newest entry.
ghost use Rattle.std.specs.Prelude.{◌≡◌};
ghost use Rattle.wal.specs.Prefix.{Met, before};
ghost use Rattle.states.specs.State.{state_after, state_number, state_of};

use endian::TxnNumber;
use wal::Kind;
use wal::inner::known_before;

// How far a transaction is: it has no entry, is open, or has ended.
#[derive(Clone, Copy, PartialEq, Eq)]
pub enum State {
    Unseen,
    Open,
    Ended,
}

// The state of a transaction whose newest entry has this type.
#[tactic(auto, unfolding(crate::specs::State::state_after, wal::specs::Kind::kind_of))]
pub fn state_after(kind: u8) -> State
    ensures { state_number result ≡ state_after kind }
{
    match Kind::of(kind) {
        Some(Kind::Commit | Kind::Rollback) => State::Ended,
        _ => State::Open,
    }
}

// The state of transaction t before place, by its newest entry before it.
pub fn look_back(log: &[u8], place: usize, t: TxnNumber) -> State
    requires { Met log.now place }
    ensures { state_number result ≡ state_of t.0 (before log.now place) }
{
    let mut p = place;
    while let Some(v) = known_before(log, p) {
        if v.txn == t {
            return state_after(v.kind);
        }
        p = v.place;
    }
    State::Unseen
}
