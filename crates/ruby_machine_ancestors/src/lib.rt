//! The run of an ancestors' task: the parent and the includes are looked up, judged and asked for, one after another.
#![tactic(auto)]

mod joining;
mod mentions;
mod run;

pub use mentions::{Awaits, Role};
pub use run::{AncestorsRun, AncestorsWait, begin, resume};
