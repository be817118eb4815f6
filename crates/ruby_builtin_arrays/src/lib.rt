//! The built-in methods of arrays.
//!
//! `call_array(&call, &members)` answers a call by the table of `specs/ArrayRows.antt`: `[1, 2].sum` is the value 3.
#![tactic(auto)]

mod array_rows;
mod giving;
mod joining;
mod members;
mod numbers;

pub use array_rows::call_array;
pub use giving::{gives_copy, gives_members, members_size};
