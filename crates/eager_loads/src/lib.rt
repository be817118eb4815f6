//! Loads of files, and then of all their tasks, on one table: what the files' loads define, and a line for each task
//! that stays unknown.
//!
//! Of files with one ring of loads, as `app/lib/a.rb` with `A::X = B::Y` and `app/lib/b.rb` with `B::Y = A::X`, the
//! loads of both files fail. Loading their tasks names each failure: both files, `A::X` and `B::Y`, each with the ring.
#![tactic(auto)]

mod loads;

pub use loads::{FilesLoaded, load_files};
