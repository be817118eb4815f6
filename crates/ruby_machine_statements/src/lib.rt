//! What the machine that runs Ruby code does with statements, and with the frames that wait in them for a value (the
//! Ruby documentation of control expressions and of methods).
//!
//! Each step says by `KeptFrom` of `ruby_machine_frames` that what there is still to do stays the same.
#![tactic(auto)]

mod node;
mod statements;
mod waiting;

pub use statements::{first_branch, run_statements};
pub use waiting::{assigned_local, assigned_variable, branched, raised};
