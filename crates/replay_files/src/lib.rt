//! The files of a replay, which its script edits: a tree in memory no call of which fails.
//!
//! | Call | Does |
//! |---|---|
//! | `write`, `remove` | edits; each write gives its file another stamp |
//! | `stamps` | the stamps of the watched files |
//! | `snapshot` | the watched files |
#![tactic(auto)]

mod files;

pub use files::Files;
