//! What changed between two snapshots of an application's files: whether they have the same stamps, and how many bytes
//! the files have that are new or differ from those before.
//!
//! With `a.rb` of 3 bytes and `b.rb` of 5 before, and `a.rb` as it was, `b.rb` of 7 other bytes and `c.rb` of 2 after,
//! 9 bytes changed. A file that is gone counts nothing.
#![tactic(auto)]

mod changes;
mod stamps;

pub use changes::changed_bytes;
pub use stamps::have_same_stamps;
