//! Which tasks of an application are loaded eagerly, in which order: the plan.
#![tactic(auto)]

pub mod laws;
mod loads;

pub use loads::{file_tasks, files_to_load, plan, push_tasks, tasks_of_files};
