// Where the images of a change stand.
ghost use Rattle.std.specs.Prelude.{◌≡◌};
ghost use Rattle.wal.specs.Prefix.{entry_in, said};
ghost use Rattle.rules.specs.Shape.{before_of, after_of};
ghost use Rattle.rules.specs.Row.{before_at, after_at};
ghost use Rattle.change.specs.Places.{ChangeAt};
ghost use Rattle.change.specs.Tuples.{logged, deleted, InLog, LoggedAt};

use crate::{Image, Source};
use endian::TxnNumber;
use wal::Kind;
use wal::inner::standing;

// n bytes of the log from a place on.
fn in_log(place: usize, n: usize) -> Image
    ensures { result ≡ logged place n }
{
    Image {
        source: Source::Log,
        place: place,
        length: n,
        deleted_by: None,
    }
}

// n bytes of the log from a place on, deleted by a transaction.
fn in_log_deleted(place: usize, n: usize, by: TxnNumber) -> Image
    ensures { result ≡ deleted place n by }
{
    Image {
        source: Source::Log,
        place: place,
        length: n,
        deleted_by: Some(by),
    }
}

// The before-image of the change at a place.
pub fn before_image(log: &[u8], at: usize) -> Image
    requires { ChangeAt log.now at }
    ensures in_log { InLog log.now result (before_of (said log.now at)) }
    ensures logged_at { LoggedAt result (before_at (entry_in log.now at)) }
{
    let e = standing(log, at);
    match Kind::of(e.kind) {
        Some(Kind::Insert) => in_log(at + 41, 0),
        Some(Kind::Delete) => in_log(at + 41, e.old_len),
        _ => in_log(at + 51, e.old_len - 10),
    }
}

// The after-image of the change at a place.
pub fn after_image(log: &[u8], at: usize) -> Image
    requires { ChangeAt log.now at }
    ensures in_log { InLog log.now result (after_of (said log.now at)) }
    ensures logged_at { LoggedAt result (after_at (entry_in log.now at)) }
{
    let e = standing(log, at);
    match Kind::of(e.kind) {
        Some(Kind::Insert) => in_log(at + 45, e.new_len),
        Some(Kind::Delete) => in_log_deleted(at + 41, e.old_len, e.txn),
        _ => in_log(at + 55 + e.old_len, e.new_len - 10),
    }
}
