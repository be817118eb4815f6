//! Generations of an application that can be shared, and the runs of requests on them, which end with their replies.
//!
//! | Word | Is |
//! |---|---|
//! | [`Generation`] | a handle of one generation's program, which contracts see as the program |
//! | [`RequestRun`] | the run of a request: it asks for tasks, one after another, and ends with the reply |
//! | [`LoadError`] | the error that a task's blame is told as, with the memory that its reply takes |
#![tactic(auto)]

mod generation;
mod load_error;
mod run;

pub use generation::Generation;
pub use load_error::LoadError;
pub use run::RequestRun;
