// Refusal 14: whether each touched page has room for what it is to hold.
#![tactic(auto)]

pub mod inner;
