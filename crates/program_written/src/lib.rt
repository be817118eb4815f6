//! What files define stands in the index of their constants, where each file that is used was read as the tree of a
//! text of the profile or has a first fault: the scopes of assigned constants are modules, the names of parents and
//! includes have a segment, and a constant that has a file is there.
//!
//! Each law is the contract of a function of [`laws`] that does nothing.
#![tactic(auto)]

pub mod laws;
