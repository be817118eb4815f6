//! Every load has an end: what a load of a task defines, and whether it is done, is there before it is made.
//!
//! | Law | Says |
//! |---|---|
//! | [`every_load_ends`] | a load of a task over a part of what is known has an order, a table and an end |
//! | [`going_loads_end`] | and so has a load that goes on, behind what it has defined |
//!
//! So a load may be spoken of as a list of defines that are left, whoever makes them, and when.
#![tactic(auto)]

mod laws;

pub use laws::{every_load_ends, going_loads_end};
