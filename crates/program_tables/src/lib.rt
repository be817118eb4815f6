//! The tables by which names are found in an application, made of the faults and tasks of its files.
//!
//! A file owns the constants among its tasks. Of `app/lib/a.rb` with `module A`, `X = 1`, `end` beside `app/lib/a/b.rb`
//! with `module A::B`, `end` the first file owns `A` and `A::X`, the second `A::B`.
#![tactic(auto)]

mod asks;
pub mod laws;
mod tables;

pub use asks::asks_of;
pub use tables::standings_of;
