//! Loads of many tasks, one after another over one table: which are defined, in which order, and who is to blame for
//! those that stay unknown.
#![tactic(auto)]

mod check;

pub use check::{Checked, check_tasks};
