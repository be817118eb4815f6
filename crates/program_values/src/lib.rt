//! What values of an application name: each class or module in them stands in the application, and each object is of a
//! class. So over what is known no call is met whose receiver or argument names what isn't there.
//!
//! Each law is the contract of a function of [`laws`] that does nothing. They rest on two facts: built-in methods name
//! nothing that wasn't handed to them (`NamesNothingNew`), and what files define stands in the index (`IsWritten`).
#![tactic(auto)]

pub mod laws;
