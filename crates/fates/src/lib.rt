// How transactions of an accepted log end.
#![tactic(auto)]

pub mod inner;

// How a transaction has ended.
#[derive(Clone, Copy, PartialEq, Eq)]
pub enum Outcome {
    Committed,
    RolledBack,
}
