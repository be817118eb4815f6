//! Places of a list, found by the hash of what stands there, without a look at the whole list.
//!
//! `Places` keeps the hashes of a list and nothing else of it, so whoever keeps the list can own it as it likes. The
//! places fall into buckets, by their hash modulo the number of buckets, and each place knows the last one before it in
//! its bucket. So the places that may hold a thing of a given hash are walked from the last one down:
//!
//! | Call | Answers |
//! |---|---|
//! | `last(hash)` | the last place in the hash's bucket |
//! | `last_before(place)` | the last place before this one in the same bucket |
//!
//! A place that neither names has another hash. There are at least as many buckets as places that were reserved, so a
//! walk is short unless hashes agree. Only making and reserving take memory.
//!
//! For example, after pushes of the hashes 5, 8, 5 the walk for 5 is the places 2 and 0, with 1 in between where 5
//! and 8
//! fall into one bucket.
#![tactic(auto)]

mod places;

pub use places::Places;
