//! How the machine of Ruby code enters methods that were found, and leaves them.
#![tactic(auto)]

mod entering;
mod leaving;

pub use entering::{Giving, invoke};
pub use leaving::{leave, leave_new};
