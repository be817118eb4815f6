//! How the machine of Ruby code finds methods: those of a class or module itself at once, and those of its ancestors
//! when these were asked for.
#![tactic(auto)]

mod instances;
mod singletons;

pub use instances::{find_instance, inherited_instance};
pub use singletons::{MethodStep, find_singleton, inherited_singleton};
