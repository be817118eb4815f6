//! One generation of an application: which file defines what, what is at fault, and what its runs look up.
//!
//! # What is told
//!
//! [`Program::build`] takes a snapshot. It judges the limits, the configuration and the names of the files, parses each
//! file that is used once, and keeps a file that is at fault as its fault. Of the files
//!
//! | File | Text |
//! |---|---|
//! | `app/models/a.rb` | `module A`, `X = 1`, `end` |
//! | `app/models/a/b.rb` | `class A::B`, `Y = X`, `end` |
//!
//! the tasks of the first are itself, `A`, its ancestors and `A::X`; the name `X` in the scope `A::B` alone is missing,
//! and in the scopes `A::B` and `A` it is `A::X` of the other file 0.
//!
//! # How it works
//!
//! | Step | Crate |
//! |---|---|
//! | limits, configuration, sites | `program_snapshots` |
//! | the text of each file that is used | `program_texts` |
//! | the fault and the tasks of each | `program_outcomes` |
//! | who owns a constant, what a name is found as, what loading asks for | `program_tables` |
//! | expressions and methods as nodes | `program_code` |
//!
//! A constant, and a method of a class or module, is found by halving, and no look-up takes memory but
//! [`Program::resolve`] and the naming of a controller, which make paths.
#![tactic(auto)]

mod controllers;
pub mod laws;
mod lookups;
mod program;
mod reading;
mod tables;

pub use program::Program;
pub use program_outcomes::Tasks;
pub use program_snapshots::{ProgramFault, Which};
pub use program_standing::Resolved;
