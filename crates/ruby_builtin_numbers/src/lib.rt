//! The built-in methods of numbers.
#![tactic(auto)]

mod int_rows;
mod whole;

pub use int_rows::call_int;
