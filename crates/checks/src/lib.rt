// The refusals of recovery but 1 and 14, each by its own walk.
#![tactic(auto)]

use order::Walked;

pub mod inner;

// What the walks over an accepted log found: its end and its last LSN, and the place of the first change beyond the lent pages, or the end.
#[derive(Clone, Copy)]
pub struct Found {
    pub walked: Walked,
    pub beyond: usize,
}

// So many Begins, and as many endings, are sorted at a time where the order of transactions takes it.
pub const PLACES: usize = 16384;
