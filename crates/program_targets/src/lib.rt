//! Each target asks for a request that may begin: its parameters are texts with distinct names.
//!
//! Each law is the contract of a function of [`laws`] that does nothing.
#![tactic(auto)]

pub mod laws;
