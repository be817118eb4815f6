//! How the machine of Ruby code resolves names of constants: step by step, left where a task is asked for and taken up
//! with its value. Each step leaves the rest of the run as it was.
#![tactic(auto)]

mod here;
mod looks;
mod names;
mod resolving;
mod search;

pub use here::{Failure, HereCode, spend};
pub use looks::{copy_error, fault, is_class, is_there, join};
pub use names::{Awaited, FoundCode, NameStep, refer};
pub use resolving::{NameWait, Resolving, resolve, resolve_begun, resume};
pub use search::{Outer, asks_ancestors, members};
