//! Loads of tasks by a pass of a shop.
//!
//! [`load`] opens a load section, lets the task's loader look at the shared table and define in it what the load needs,
//! and leaves the section, whatever came of it. Between two turns of the shop the runs go on without it.
//!
//! # An example
//!
//! `a` asks for `b`, and the table is empty:
//!
//! | Call of the shop | Its act | The loader |
//! |---|---|---|
//! | `start_loading` of `a` | Take | |
//! | `lookup` of `a`, of `b` | none | runs `a` up to its question, and then `b` to its end |
//! | `room`, `define` of `b` | Define(`b`) | |
//! | `lookup` of `b` | none | runs `a` to its end |
//! | `room`, `define` of `a` | Define(`a`) | |
//! | `done_loading` | Release | |
//!
//! Where others are exclusive or share, `start_loading` makes a Seek, and `await_loading` the Take.
#![tactic(auto)]

mod loading;
mod section;

pub use loading::load;
pub use section::define_all;
