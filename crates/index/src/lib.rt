// An index: places in a log, sorted by the transaction number of the entry that stands there, one place for each number.
// Every function asks for something, so all stand in `inner`.
#![tactic(auto)]

pub mod inner;
