// The types of recovery's answers; specs/ says what they are to hold.
#![tactic(auto)]

use endian::{Lsn, TxnNumber};

// What recovery answers; refused, all but number and place are 0. The ending of the log is 0 exact, 1 torn, 2 unused. It is flat, with numbers, as `rules Recover.recover_of` has it, of whose answer the theorems of
// history, repaired and cases speak.
#[derive(Clone, Copy)]
pub struct Answer {
    pub number: u64,
    pub place: u64,
    pub last_lsn: Lsn,
    pub tail: u64,
    pub committed: u64,
    pub rolled_back: u64,
    pub unended: u64,
    pub changes_committed: u64,
    pub changes_rolled_back: u64,
    pub changes_unended: u64,
    pub changes_zero: u64,
    pub rewritten: u64,
    pub ending: u64,
}

// A record of the transaction table: outcome 0 unended, 1 committed, 2 rolled back; the LSNs of its Begin, of its Commit or Rollback and of its last change, 0 where there is none. The outcome is
// a number, since a lent table may hold any: an enum would ask more of whoever lends it.
#[derive(Clone, Copy)]
pub struct Record {
    pub number: TxnNumber,
    pub first: Lsn,
    pub outcome: u8,
    pub changes: u64,
    pub ending: Lsn,
    pub last: Lsn,
}

// A row as recovery would leave it: refused or unfilled, its header is zero. Its 7 pad bytes are one number. It is flat, as `rules Row.row_of` has it.
#[derive(Clone, Copy)]
pub struct RowHead {
    pub number: u64,
    pub place: u64,
    pub filled: bool,
    pub xmin: TxnNumber,
    pub xmax: TxnNumber,
    pub deleted: u8,
    pub pad: u64,
}

// A row's header, and where its payload stands: source 1 the log, 2 the pages, 0 nowhere. It is flat, as `rules Row.located_of` has it.
#[derive(Clone, Copy)]
pub struct Located {
    pub head: RowHead,
    pub source: u64,
    pub offset: u64,
    pub length: u64,
}
