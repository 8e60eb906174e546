// The shape of an entry (refusal 6).
ghost use Rattle.std.specs.Prelude.{◌≡◌, ◌+◌, ◌≤◌, length, eqb};
ghost use Rattle.endian.specs.Numbers.{part};
ghost use Rattle.wal.specs.Entry.{entry_of, key_part, old_part, new_part};
ghost use Rattle.wal.proofs.WalkLaws.{EntryAt};
ghost use Rattle.rules.specs.Shape.{both, is_image, is_keyed, is_shaped};

use crate::{KEY_AT, KEY_BYTES};
use endian::TxnNumber;
use page::{LONGEST_TUPLE_BYTES, ROW_HEAD_BYTES};
use wal::{EntryView, Kind, SHORTEST};

// Whether the n bytes at `at` are a tuple image.
fn image(log: &[u8], at: usize, n: usize) -> bool
    requires { at + n ≤ length log.now }
    ensures { result ≡ is_image (part at n log.now) }
{
    n >= ROW_HEAD_BYTES && n <= LONGEST_TUPLE_BYTES && log[at + 16] <= 1
}

// Whether the n bytes at `at` are the key again and a tuple image.
fn keyed(log: &[u8], key: usize, at: usize, n: usize) -> bool
    requires { (key + 10 ≤ length log.now) × (at + n ≤ length log.now) }
    ensures { result ≡ is_keyed (part key 10 log.now) (part at n log.now) }
{
    n >= KEY_BYTES
        && log[at..at + KEY_BYTES] == log[key..key + KEY_BYTES]
        && image(log, at + KEY_BYTES, n - KEY_BYTES)
}

// The shape of an Insert, by its inner lengths.
fn insert_shaped(log: &[u8], v: EntryView) -> bool
    requires { EntryAt log.now v.place v }
    ensures { result ≡ both (eqb v.key_len 10) (both (eqb v.old_len 0) (is_image (new_part log.now v))) }
{
    v.key_len == KEY_BYTES
        && v.old_len == 0
        && image(log, v.place + (35 + v.key_len + v.old_len), v.new_len)
}

// The shape of a Delete.
fn delete_shaped(log: &[u8], v: EntryView) -> bool
    requires { EntryAt log.now v.place v }
    ensures { result ≡ both (eqb v.key_len 10) (both (is_image (old_part log.now v)) (eqb v.new_len 0)) }
{
    v.key_len == KEY_BYTES && image(log, v.place + (31 + v.key_len), v.old_len) && v.new_len == 0
}

// The shape of an update in place.
fn update_shaped(log: &[u8], v: EntryView) -> bool
    requires { EntryAt log.now v.place v }
    ensures { result ≡ both (eqb v.key_len 10)
        (both (is_keyed (key_part log.now v) (old_part log.now v)) (is_keyed (key_part log.now v) (new_part log.now v))) }
{
    let key = v.place + KEY_AT;
    v.key_len == KEY_BYTES
        && keyed(log, key, v.place + (31 + v.key_len), v.old_len)
        && keyed(log, key, v.place + (35 + v.key_len + v.old_len), v.new_len)
}

// The shape of any entry.
#[tactic(auto, using(crate::proofs::ByKind::shaped_by_kind))]
pub fn shaped(log: &[u8], v: EntryView) -> bool
    requires { EntryAt log.now v.place v }
    ensures { result ≡ is_shaped (entry_of log.now v) }
{
    match Kind::of(v.kind) {
        Some(Kind::Insert) => insert_shaped(log, v),
        Some(Kind::Delete) => delete_shaped(log, v),
        Some(Kind::Update) => update_shaped(log, v),
        Some(Kind::Checkpoint) => v.length == SHORTEST && v.txn == TxnNumber(0),
        _ => v.length == SHORTEST,
    }
}
