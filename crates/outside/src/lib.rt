//! What lies outside the program, as traits: bytes that come in, bytes that go out, and a tree of files.
//!
//! | Trait | Is | In memory | Tells, if it tells |
//! |---|---|---|---|
//! | [`Source`] | where bytes come from | [`MemSource`] | the bytes that are left |
//! | [`Sink`] | where bytes go to | [`MemSink`] | the bytes that were written |
//! | [`Tree`] | the files of an application | [`MemTree`] | the files that it holds, and what it gave |
//!
//! # What is told
//!
//! What an object tells is an option of a list, None where it doesn't tell: of a real folder or terminal nothing is
//! known beforehand. A call's clause is an equation between what was told before and after it. So what is proved of a
//! program over any tree and any sink says of a real one which status comes where, and of one in memory every byte.
//!
//! # Faults
//!
//! Each trait counts its faults. The count rises at each call that answers `Failed`, and stays at every other answer,
//! want of memory among them. So a caller can prove that it names a fault only where one came. The objects in memory
//! fail at the calls with the numbers that they were told, and at no other while memory lasts.
//!
//! # Trees
//!
//! A tree gives the watched files alone, in the order of their paths: those below `app/` and `lib/` whose path ends in
//! `.rb`, and the configuration. A [`Stamp`] tells, without a look at the contents, whether a file has changed: in a
//! tree that tells, equal stamps mean equal contents. No file that a tree gives has more bytes than its stamp says, so
//! the limits of an application are judged by its stamps ([`are_within_limits`]), and a tree may leave the contents of
//! one beyond them unread.
//!
//! # An example
//!
//! Over `MemTree::new(alloc, fails)` with the call number 2 in `fails`, after `write("app/a.rb", b"A")`:
//!
//! | Call | Answers |
//! |---|---|
//! | `stamps()` | `Read` of `app/a.rb` with length 1 and time 1 |
//! | `read_all()` | `Failed`, and the count of faults is 1 |
//! | `write("README", b"x")`, then `stamps()` | the same stamps: no other file is watched |
//! | `write("app/a.rb", b"B")`, then `stamps()` | `Read` of `app/a.rb` with length 1 and time 3 |
#![tactic(auto)]

pub mod answers;
pub mod calls;
mod file_table;
pub mod files;
mod glance;
pub mod limits;
pub mod mem_sink;
pub mod mem_source;
pub mod mem_tree;
pub mod streams;
pub mod trees;
pub mod watched;
pub mod writing;

pub use answers::{ReadAns, StampsAns, TreeAns, WriteAns};
pub use calls::Calls;
pub use files::{
    CallNumbers, FileBytes, FileEntries, FileEntry, FilePath, Snapshot, Stamp, Stamps,
};
pub use limits::{LONGEST_PATH, MOST_BYTES, MOST_FILES, are_within_limits, sum_of_lengths};
pub use mem_sink::MemSink;
pub use mem_source::MemSource;
pub use mem_tree::{MemTree, copy_stamps};
pub use streams::{Sink, Source};
pub use trees::Tree;
pub use watched::{CONFIGURATION_PATH, is_watched};
pub use writing::{Delivery, write_all};
