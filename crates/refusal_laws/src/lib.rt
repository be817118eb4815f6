//! Files that have a program are not refused.
#![tactic(auto)]

pub mod laws;
