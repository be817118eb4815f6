//! Tasks by name: their order, which decides from where a ring of tasks is named, and what finds them in a table.
#![tactic(auto)]

mod key;
mod name;
mod order;

pub use key::{TaskKey, TaskRef};
pub use order::at_most;
