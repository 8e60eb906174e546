// A change entry: the one home of what code asks of it.
#![tactic(auto)]

use endian::TxnNumber;

pub mod images;
pub mod inner;
pub mod shape;

// A key is a page number and a slot number; where it stands behind the start of its entry, and its slot number there.
pub const KEY_BYTES: usize = 10;

pub const KEY_AT: usize = 27;

pub const SLOT_AT: usize = 35;

// A change has at least so many bytes: the fixed parts, a key and an image.
pub const SHORTEST_CHANGE: usize = 77;

// What the bytes of an image are part of.
#[derive(Clone, Copy, PartialEq, Eq)]
pub enum Source {
    Log,
    Page,
}

// A tuple as it stands in the log, or else in a page: place, length, and, for one that is deleted, by which transaction.
#[derive(Clone, Copy)]
pub struct Image {
    pub source: Source,
    pub place: usize,
    pub length: usize,
    pub deleted_by: Option<TxnNumber>,
}
