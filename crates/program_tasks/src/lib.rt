//! The tasks of a file: itself, and each constant that it defines, once, with its ancestors where it is a module or
//! class.
//!
//! Of `app/lib/a.rb` with `module A`, `X = 1`, `class B`, `end`, `class B`, `end`, `end` the tasks are the file, `A`,
//! its ancestors, `A::X`, `A::B` and its ancestors. A file at fault has itself, its constant, and its ancestors.
#![tactic(auto)]

mod definitions;
mod tasks;

pub use tasks::{Tasks, tasks_by};
