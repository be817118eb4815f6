//! Calls in the machine of Ruby code: from a receiver, a name and arguments to the method that is found, to `new` or to
//! a built-in method. Where ancestors have to be asked for, a frame waits for them.
#![tactic(auto)]

mod calls;
mod instances;
mod singletons;

pub use calls::call;
pub use instances::resume_instance;
pub use singletons::{resume_initialize, resume_singleton};
