// The transaction table of an accepted log, as plain numbers and as records.
#![tactic(auto)]

use endian::{Lsn, TxnNumber};

pub mod inner;
mod rows;

// How many numbers a record has in a table of numbers.
pub const STRIDE: usize = 6;

// What a table of numbers says of a transaction. The outcome is a number here too, since a table of numbers may hold any: C callers lend it (`lq_recover`).
#[derive(Clone, Copy)]
pub struct Row {
    pub number: TxnNumber,
    pub first: Lsn,
    pub outcome: u64,
    pub changes: u64,
    pub ending: Lsn,
    pub last: Lsn,
}
