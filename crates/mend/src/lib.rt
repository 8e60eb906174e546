// Mending: each touched page rewritten in its place.
#![tactic(auto)]

pub mod inner;
