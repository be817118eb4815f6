//! The steps of the machine that runs Ruby code, and a run of them until it stops: with an answer, or for a task whose
//! value it needs.
#![tactic(auto)]

mod frames;
mod steps;

pub use steps::run;
