//! Expressions: the part of the parser by recursive descent whose functions call each other.
//!
//! [`expression`] reads what the rule `expression` of the grammar reads.
#![tactic(auto)]

mod arguments;
mod operators;
mod primary;

pub use operators::expression;
