//! A load section of a seat of a system: what a loader tells is defined in the system's table, one event at a time.
//!
//! A seat that is exclusive for a load of a task calls [`LoadSection::define_next`] until it answers `Loaded` or
//! `Failed`. Each call but the last defines one task, by need of the sought one, so that its condition as an event
//! holds.
//!
//! A Take of a load opens such a section ([`taken_loads_are_open`]), on which a loader begins
//! ([`open_sections_are_loading`]), and what it rests on stays whatever the other seats do ([`load_sections_stay`]).
//!
//! | Call | Answers, where `a` asks for `b` and the table is empty |
//! |---|---|
//! | `LoadSection::begin` for `a` | |
//! | `define_next` | `Defined(b)` |
//! | `define_next` | `Defined(a)` |
//! | `define_next` | `Loaded` |
#![tactic(auto)]

mod laws;
mod section;

pub use laws::{load_sections_stay, open_sections_are_loading, taken_loads_are_open};
pub use section::{LoadSection, Made};
