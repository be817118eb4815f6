//! Which files of an application are loaded eagerly, and in which order.
//!
//! All that are the file of a constant are, or of these the plan: the files that no line `skip_eager` of the
//! configuration marks. Files that are shadowed, hidden or ignored are never loaded.
#![tactic(auto)]

mod plan;
mod roots;
mod skipped;

pub use plan::eager_files;
