// The rule on clashes.
#![tactic(auto)]

pub mod inner;
