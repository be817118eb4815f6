//! The words of a printed file are a file of the grammar, and its tree is the one that was printed.
#![tactic(auto)]

pub mod laws;
