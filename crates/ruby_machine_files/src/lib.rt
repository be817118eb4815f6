//! The run of a file's task: it asks for the tasks of its file, one after another.
#![tactic(auto)]

mod here;
mod run;
mod step;

pub use here::{TASK_TURNS, file_here};
pub use run::{FileWait, begin, resume};
pub use step::TaskStep;
