// What recovery counts over an accepted log.
#![tactic(auto)]

pub mod inner;

// Transactions by outcome, changes by the outcome of their transaction, and changes of transaction 0.
#[derive(Clone, Copy)]
pub struct Tally {
    pub committed: u64,
    pub rolled_back: u64,
    pub unended: u64,
    pub changes_committed: u64,
    pub changes_rolled_back: u64,
    pub changes_unended: u64,
    pub changes_zero: u64,
}
