// Sorting in place by halves of the range of keys, and searching by halves. What a key is, and what comes after it, is the caller's.
#![tactic(auto)]

pub mod inner;
