//! Definitions and whole files, read by recursive descent.
//!
//! [`file`] reads what the rule `file` of the grammar reads.
#![tactic(auto)]

mod counting;
mod definitions;
mod files;
mod headers;
mod headings;
mod members;
mod methods;
mod parameters;
mod paths;
mod place;

pub use files::file;
