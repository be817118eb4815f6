//! The run of a request up to its action: the controller is referred to, the action is found, and called with the
//! parameters in the first frame.
#![tactic(auto)]

mod beginning;
mod run;

pub use beginning::begun;
pub use run::{RequestAwaits, RequestRun, RequestStep, RequestWait, begin, resume};
