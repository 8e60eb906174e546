// The state of a transaction at a place of a log. What needs a `requires` is in `inner`.
#![tactic(auto)]

pub mod inner;
