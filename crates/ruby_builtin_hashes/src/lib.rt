//! The built-in methods of hashes.
//!
//! `call_hash(&call, &pairs)` answers a call by the table of `specs/HashRows.antt`: `{a: 1}.fetch(:a)` is the value 1.
#![tactic(auto)]

mod finding;
mod hash_rows;
mod listing;
mod merging;

pub use hash_rows::call_hash;
