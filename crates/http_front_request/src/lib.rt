//! The requests that targets ask for.
#![tactic(auto)]

mod form;
mod request;
mod route;

pub use request::{LONGEST_TARGET, TargetFault, request_of};
