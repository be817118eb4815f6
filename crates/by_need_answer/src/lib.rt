//! The answer of a run that is no task of its program, as that of a request is: it asks for tasks, which are loaded by
//! need into a table. It comes to what the run comes to over all that is known, whatever was loaded before.
#![tactic(auto)]

pub mod answer;

pub use answer::{Answered, answer_run};
