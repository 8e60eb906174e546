// The same over lent checksum tables, and readers for callers that know an entry to stand there.
ghost use Rattle.std.specs.Simd.{first_chunks};
ghost use Rattle.std.specs.Prelude.{◌≡◌, ◌/◌, ◌*◌, ◌+◌, ◌-◌, ◌≤◌, ◌<◌, length, drop};
ghost use Rattle.endian.specs.Numbers.{part};
ghost use Rattle.crc32c.specs.Crc.{crc32c as crc_of};
ghost use Rattle.wal.specs.Read.{fields, all_zero, inner_at, whole_at, read_at, read_before, length_before};
ghost use Rattle.wal.specs.Walk.{end_of, ending_of, ending_number, number_of_ending};
ghost use Rattle.wal.specs.declared.Reading.TheVariants.{Damage};
ghost use Rattle.wal.specs.Prefix.{Stands, Met, entry_in, known_at, known_before};

use crate::{Ending, EntryView, FIRST, LONGEST, Reading, SHORTEST};
use crc32c::inner::Tables;
use endian::inner::{u16_at, u32_at, u64_at};
use endian::{Lsn, TxnNumber};

// The checksum of the n bytes at place.
fn sum_of(t: &Tables, log: &[u8], place: usize, n: usize) -> u32
    requires { place + n ≤ length log.now }
    ensures { result ≡ crc_of (part place n log.now) }
{
    let end = place + n;
    crc32c::inner::crc32c(t, &log[place..end])
}

// The fields of the entry of n bytes at place, whose inner lengths are known.
fn fields_at(
    log: &[u8],
    place: usize,
    n: usize,
    key_len: usize,
    old_len: usize,
    new_len: usize,
) -> EntryView
    requires { place + 25 ≤ length log.now }
    ensures { result ≡ fields log.now place n key_len old_len new_len }
{
    EntryView {
        place,
        length: n,
        lsn: Lsn(u64_at(log, place + 4)),
        txn: TxnNumber(u64_at(log, place + 12)),
        kind: log[place + 20],
        table: u32_at(log, place + 21),
        key_len,
        old_len,
        new_len,
    }
}

// The n bytes at place as an entry.
#[tactic(auto, unfolding(crate::specs::Read::whole_at))]
fn whole_at(t: &Tables, log: &[u8], place: usize, n: usize) -> Reading
    requires { (43 ≤ n) × (n ≤ 32705) × (place + n ≤ length log.now) }
    ensures { result ≡ whole_at log.now place n }
{
    if u32_at(log, place) as usize != n {
        return Reading::Damage;
    }
    if u32_at(log, place + (n - 4)) as usize != n {
        return Reading::Damage;
    }
    if u32_at(log, place + (n - 8)) != sum_of(t, log, place, n - 8) {
        return Reading::Damage;
    }
    inner_lengths(log, place, n)
}

// The n bytes at place as an entry, once its outer lengths and its checksum are known to be right.
#[tactic(auto, unfolding(crate::specs::Read::inner_at, crate::specs::Read::view))]
fn inner_lengths(log: &[u8], place: usize, n: usize) -> Reading
    requires { (43 ≤ n) × (n ≤ 32705) × (place + n ≤ length log.now) }
    ensures { result ≡ inner_at log.now place n }
{
    let room = n - SHORTEST;
    let key_len = u16_at(log, place + 25) as usize;
    if room < key_len {
        return Reading::Damage;
    }
    let old_len = u32_at(log, place + (27 + key_len)) as usize;
    if room - key_len < old_len {
        return Reading::Damage;
    }
    let new_len = u32_at(log, place + (31 + key_len + old_len)) as usize;
    if room - key_len - old_len != new_len {
        return Reading::Damage;
    }
    Reading::Whole(fields_at(log, place, n, key_len, old_len, new_len))
}

// Bytes by eights, and those that are left. A function of its own: with as_chunks in the function that has the loop, the proof did not close.
fn by_eights(s: &[u8]) -> (&[[u8; 8]], &[u8])
    ensures front { result.0.now ≡ first_chunks 8 (length s.now / 8) s.now }
    ensures len { length result.0.now ≡ length s.now / 8 }
    ensures back { result.1.now ≡ drop (length s.now / 8 * 8) s.now }
{
    s.as_chunks::<8>()
}

// Whether all bytes are zero, eight at a time.
fn is_zero(s: &[u8]) -> bool
    ensures { result ≡ all_zero s.now }
{
    let (eights, rest) = by_eights(s);
    for eight in eights {
        if u64_at(eight, 0) != 0 {
            return false;
        }
    }
    rest.iter().all(|b| *b == 0)
}

// What stands at place.
#[tactic(auto, unfolding(crate::specs::Read::read_at))]
pub fn entry_at(t: &Tables, log: &[u8], place: usize) -> Reading
    ensures { result ≡ read_at log.now place }
{
    if place < FIRST {
        return Reading::End;
    }
    if log.len() <= place {
        return Reading::End;
    }
    let left = log.len() - place;
    if left < 4 {
        return Reading::Torn;
    }
    let n = u32_at(log, place) as usize;
    if n < SHORTEST {
        if is_zero(&log[place..]) {
            return Reading::Unused;
        }
        return Reading::Damage;
    }
    if n > LONGEST {
        return Reading::Damage;
    }
    if left < n {
        return Reading::Torn;
    }
    whole_at(t, log, place, n)
}

// The entry that ends at place, if a whole one does.
#[tactic(auto, unfolding(crate::specs::Read::read_before))]
pub fn entry_before(t: &Tables, log: &[u8], place: usize) -> Option<EntryView>
    ensures { result ≡ read_before log.now place }
{
    if place < FIRST + 4 {
        return None;
    }
    if log.len() < place {
        return None;
    }
    let n = u32_at(log, place - 4) as usize;
    if n < SHORTEST {
        return None;
    }
    if n > LONGEST {
        return None;
    }
    if place - FIRST < n {
        return None;
    }
    let Reading::Whole(v) = whole_at(t, log, place - n, n) else {
        return None;
    };
    Some(v)
}

// The place where the walk from the first entry ends.
pub fn end_of(t: &Tables, log: &[u8]) -> usize
    ensures { result ≡ end_of log.now }
{
    let mut at = FIRST;
    while let Reading::Whole(v) = entry_at(t, log, at) {
        at += v.length;
    }
    at
}

// The ending of a log that meets no damage, at the place where its walk ends.
pub fn ending_at(log: &[u8], place: usize) -> Ending
    requires place { place ≡ end_of log.now }
    requires undamaged { ending_of log.now ≡ Damage → ⊥ }
    ensures { number_of_ending result ≡ ending_number (ending_of log.now) }
{
    if log.len() <= place {
        return Ending::Exact;
    }
    if log.len() - place < 4 {
        return Ending::Torn;
    }
    if u32_at(log, place) == 0 {
        return Ending::Unused;
    }
    Ending::Torn
}

// The entry that is known to stand at place, and no checksum. That it stands there is asked by a clause here and above, and not by a type: a place in a log is a bare number in every array that keeps places.
pub fn standing(log: &[u8], place: usize) -> EntryView
    requires { Stands log.now place }
    ensures { result ≡ entry_in log.now place }
{
    let n = u32_at(log, place) as usize;
    let key_len = u16_at(log, place + 25) as usize;
    let old_len = u32_at(log, place + (27 + key_len)) as usize;
    let new_len = n - SHORTEST - key_len - old_len;
    fields_at(log, place, n, key_len, old_len, new_len)
}

// The entry that is known to stand at place where the walk goes on to end, and no checksum. It answers a Reading and no Option: law Known.known_read says that it is what entry_at reads.
#[tactic(auto, unfolding(crate::specs::Prefix::known_at))]
pub fn known_at(log: &[u8], place: usize, end: usize) -> Reading
    requires { place < end → Stands log.now place }
    ensures { result ≡ known_at log.now place end }
{
    if end <= place {
        return Reading::End;
    }
    Reading::Whole(standing(log, place))
}

// The place of the entry that is known to end at place.
pub fn place_before(log: &[u8], place: usize) -> usize
    requires met { Met log.now place }
    requires lt_place { 32 < place }
    ensures { result ≡ place - length_before log.now place }
{
    place - u32_at(log, place - 4) as usize
}

// The entry that is known to end at place, unless that is where the walk began, and no checksum.
#[tactic(auto, unfolding(crate::specs::Prefix::known_before))]
pub fn known_before(log: &[u8], place: usize) -> Option<EntryView>
    requires { Met log.now place }
    ensures { result ≡ known_before log.now place }
{
    if place <= FIRST {
        return None;
    }
    Some(standing(log, place_before(log, place)))
}
