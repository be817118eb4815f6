//! Putting pairs into hashes, by an index over the digests of their keys, so that the time is near the number of pairs.
#![tactic(auto)]

mod digests;
mod indexed;
mod merging;

pub use digests::digest;
pub use merging::merged;
