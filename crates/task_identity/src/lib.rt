//! Tasks as a system looks them up: whether two are the same, whatever they are made of, requests with values of any
//! kind among them, and a number by which they are found.
#![tactic(auto)]

mod hash;
mod same;

pub use hash::task_hash;
pub use same::same_task;
