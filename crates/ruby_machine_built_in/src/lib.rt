//! Calls of built-in methods by the machine of Ruby code, and the errors of calls.
#![tactic(auto)]

mod errors;
mod rows;

pub use errors::{too_deep, wrong_count};
pub use rows::built_in;
