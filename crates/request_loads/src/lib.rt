//! What a matter owes whose tasks are loaded by need: the theory of each program, and why a task stays unknown.
//!
//! | Member | Owes |
//! |---|---|
//! | `theory` | the theory of a program: its tasks, what is known of them, and their runs |
//! | `unknown` | why a task stays unknown whose load failed so |
//! | `copy_value`, `copy_request` | the same value, the same request |
#![tactic(auto)]

mod loads;

pub use loads::Loads;
