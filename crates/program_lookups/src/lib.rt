//! What the machine of Ruby code looks up of an application: what stands at a constant path, the methods that a class
//! or module has of its own, what loading a file asks for.
#![tactic(auto)]

mod code;
mod lookups;

pub use code::{BodyCode, MentionCode, MethodCode, OpeningCode, Scopes};
pub use lookups::{LoadingCode, Lookups, Standing};
