//! Why files have no program is told by their fault: a limit, a line of the configuration or a name, and never by want
//! of memory inside such a fault.
//!
//! Each law is the contract of a function of [`laws`] that does nothing.
#![tactic(auto)]

pub mod laws;
