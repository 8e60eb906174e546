// What other crates call with a `requires`: the page and the slots of a change, and its outcome bit.
ghost use Rattle.std.specs.Prelude.{◌≡◌, ◌/◌, ◌≤◌, ◌<◌, length, get_or};
ghost use Rattle.wal.specs.Read.{first};
ghost use Rattle.wal.specs.Prefix.{Stands, said};
ghost use Rattle.rules.specs.Shape.{is_changing, page_of};
ghost use Rattle.change.specs.Places.{ChangeAt, slots_of, top_slot};
ghost use Rattle.change.specs.Bits.{number_for, bit_of, with_bit};

use crate::{KEY_AT, SHORTEST_CHANGE, SLOT_AT};
use endian::inner::{u16_at, u64_at};
use endian::{Lsn, PageNumber};
use wal::{FIRST, Kind};

// Whether an entry of this type is a change.
#[tactic(auto, using(crate::proofs::ByKind::changing_by_kind))]
pub fn is_change(kind: u8) -> bool
    ensures { result ≡ is_changing kind }
{
    matches!(
        Kind::of(kind),
        Some(Kind::Insert | Kind::Delete | Kind::Update)
    )
}

// The LSN of the entry at place.
pub fn lsn_of(log: &[u8], place: usize) -> Lsn
    requires { Stands log.now place }
    ensures { result.0 ≡ (said log.now place).lsn }
{
    Lsn(u64_at(log, place + 4))
}

// The page of the change at place.
pub fn page_of(log: &[u8], place: usize) -> PageNumber
    requires { ChangeAt log.now place }
    ensures { result.0 ≡ page_of (said log.now place) }
{
    PageNumber(u64_at(log, place + KEY_AT))
}

// How many slots the change at place changes.
pub fn slot_count(log: &[u8], place: usize) -> usize
    requires { ChangeAt log.now place }
    ensures { result ≡ length (slots_of (said log.now place)) }
{
    1
}

// The slot that is number j of those.
pub fn slot_at(log: &[u8], place: usize, j: usize) -> usize
    requires change_at { ChangeAt log.now place }
    requires j_in_bounds { j < length (slots_of (said log.now place)) }
    ensures { result ≡ get_or (slots_of (said log.now place)) j 0 }
{
    u16_at(log, place + SLOT_AT) as usize
}

// One more than the highest of them.
pub fn top(log: &[u8], place: usize) -> usize
    requires { ChangeAt log.now place }
    ensures { result ≡ top_slot (slots_of (said log.now place)) }
{
    u16_at(log, place + SLOT_AT) as usize + 1
}

// The number of the outcome bit of the change at place.
fn number_for(place: usize) -> usize
    requires { first ≤ place }
    ensures { result ≡ number_for place }
{
    (place - FIRST) / SHORTEST_CHANGE
}

// The outcome bit of the change at place.
pub fn bit_at(bits: &[u8], place: usize) -> bool
    requires { (first ≤ place) × (number_for place / 8 < length bits.now) }
    ensures { result ≡ bit_of bits.now place }
{
    let n = number_for(place);
    (bits[n / 8] >> (n % 8)) % 2 == 1
}

// Sets it.
pub fn set_bit(bits: &mut [u8], place: usize)
    requires { (first ≤ place) × (number_for place / 8 < length bits.old) }
    ensures { bits.new ≡ with_bit bits.old place }
{
    if bit_at(bits, place) {
        return;
    }
    let n = number_for(place);
    let i = n / 8;
    bits[i] = bits[i] + (1 << (n % 8));
}
