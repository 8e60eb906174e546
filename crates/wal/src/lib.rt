// The write-ahead log: what stands at a place, the walk, and a reader that keeps its place.
#![tactic(auto)]

ghost use Rattle.std.specs.Prelude.{◌≡◌};
ghost use Rattle.refusals.specs.Verdict.{fault_number};
ghost use Rattle.wal.specs.Kind.{kind_number, kind_of};
ghost use Rattle.wal.specs.Read.{header_fault, read_at, read_before};
ghost use Rattle.wal.specs.Walk.{end_of, number_of_ending};

use endian::{Lsn, TxnNumber};
use refusals::Refusal;

pub mod inner;
pub mod reader;

// A log of more bytes is refused by 2.
pub const LOG_LIMIT_BYTES: usize = 16777216;

// The place of the first entry, behind the file header.
pub const FIRST: usize = 32;

// An entry's length is within these bounds; its fixed parts sum to the lower.
pub const SHORTEST: usize = 43;

pub const LONGEST: usize = 32705;

// An entry that stands in a log: where, and its fields; its key, old and new value are parts of the log. Its kind is the byte that stands there, also one that is no type's.
#[derive(Clone, Copy)]
pub struct EntryView {
    pub place: usize,
    pub length: usize,
    pub lsn: Lsn,
    pub txn: TxnNumber,
    pub kind: u8,
    pub table: u32,
    pub key_len: usize,
    pub old_len: usize,
    pub new_len: usize,
}

// The type of an entry.
#[derive(Clone, Copy, PartialEq, Eq)]
pub enum Kind {
    Begin,
    Commit,
    Rollback,
    Insert,
    Delete,
    Checkpoint,
    Update,
}

impl Kind {
    // The type that a byte is the number of.
    #[tactic(auto, unfolding(crate::specs::Kind::kind_of))]
    pub fn of(byte: u8) -> Option<Kind>
        ensures { result ≡ kind_of byte }
    {
        match byte {
            1 => Some(Kind::Begin),
            2 => Some(Kind::Commit),
            3 => Some(Kind::Rollback),
            4 => Some(Kind::Insert),
            5 => Some(Kind::Delete),
            7 => Some(Kind::Checkpoint),
            10 => Some(Kind::Update),
            _ => None,
        }
    }

    // Its number.
    pub fn number(self) -> u8
        ensures { result ≡ kind_number self }
    {
        match self {
            Kind::Begin => 1,
            Kind::Commit => 2,
            Kind::Rollback => 3,
            Kind::Insert => 4,
            Kind::Delete => 5,
            Kind::Checkpoint => 7,
            Kind::Update => 10,
        }
    }
}

// What reading forward finds at a place.
#[derive(Clone, Copy)]
pub enum Reading {
    Whole(EntryView),
    End,
    Torn,
    Unused,
    Damage,
}

// How a log ends that meets no damage.
#[derive(Clone, Copy, PartialEq, Eq)]
pub enum Ending {
    Exact,
    Torn,
    Unused,
}

impl Ending {
    // Its number.
    pub fn number(self) -> u64
        ensures { result ≡ number_of_ending self }
    {
        match self {
            Ending::Exact => 0,
            Ending::Torn => 1,
            Ending::Unused => 2,
        }
    }
}

// Refusal 2 or 3 of the log's length and header.
#[tactic(auto, unfolding(crate::specs::Read::header_fault, endian::specs::Numbers::number_of))]
pub fn header_fault(log: &[u8]) -> Result<(), Refusal>
    ensures { fault_number result ≡ header_fault log.now }
{
    if log.len() > LOG_LIMIT_BYTES {
        return Err(Refusal::LogTooLong);
    }
    if log.len() < FIRST {
        return Err(Refusal::LogHeader);
    }
    if endian::inner::u32_at(log, 0) != 0x4E4C4157 {
        return Err(Refusal::LogHeader);
    }
    if endian::inner::u16_at(log, 4) != 1 {
        return Err(Refusal::LogHeader);
    }
    Ok(())
}

// What stands at place.
pub fn entry_at(log: &[u8], place: usize) -> Reading
    ensures { result ≡ read_at log.now place }
{
    let t = crc32c::inner::tables();
    inner::entry_at(&t, log, place)
}

// The entry that ends at place, if a whole one does.
pub fn entry_before(log: &[u8], place: usize) -> Option<EntryView>
    ensures { result ≡ read_before log.now place }
{
    let t = crc32c::inner::tables();
    inner::entry_before(&t, log, place)
}

// The place where the walk from the first entry ends.
pub fn end_of(log: &[u8]) -> usize
    ensures { result ≡ end_of log.now }
{
    let t = crc32c::inner::tables();
    inner::end_of(&t, log)
}
