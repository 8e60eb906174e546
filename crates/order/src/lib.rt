// The order rules of a log: its first walk.
#![tactic(auto)]

use endian::{Lsn, TxnNumber};
use index::inner::collect::Held;
use refusals::Refused;

pub mod inner;

// The highest transaction number.
pub const TOP: TxnNumber = TxnNumber(18446744073709551615);

// What is collected of Begins, and of endings.
#[derive(Clone, Copy)]
pub struct Holding {
    pub begins: Held,
    pub ends: Held,
}

// What two arrays hold: the first Begins and the first endings before `stop` of the transactions lo to hi, so many of each.
#[derive(Clone, Copy)]
pub struct Block {
    pub stop: usize,
    pub lo: TxnNumber,
    pub hi: TxnNumber,
    pub begins: usize,
    pub ends: usize,
}

// What a walk has seen: the last LSN, and how many Begins.
#[derive(Clone, Copy)]
pub struct Seen {
    pub last: Lsn,
    pub begins: u64,
}

// Where the checksums and rules 5, 6, 7 and 10 stop a walk and why, how far rule 8 is to be tested, what was seen before, and, where every entry before that is known to be in order,
// the highest number that began.
#[derive(Clone, Copy)]
pub struct Scan {
    pub found: Result<Walked, Refused>,
    pub stop: usize,
    pub seen: Seen,
    pub turns: Option<TxnNumber>,
}

// Of a log that is not refused: where it ends, and its last LSN.
#[derive(Clone, Copy)]
pub struct Walked {
    pub end: usize,
    pub last: Lsn,
}
