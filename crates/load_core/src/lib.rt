//! Loads of an application's tasks into a table: what `by_need_loader` loads, with a blame told as its error.
//!
//! It is generic over what runs the tasks. What is known and who is to blame are those of `by_need`, whatever was
//! loaded before.
#![tactic(auto)]

mod whole;

pub use load_table::Table;
pub use whole::{Loaded, load};
