//! The text of a file's tree: each item and statement on a line of its own, two spaces deeper than what it stands in.
//!
//! It need not be a text that any hand would write: operator expressions inside others stand in parentheses, texts in
//! double
//! quotes, and the pairs of a hash have `=>`.
#![tactic(auto)]

mod definition;
mod expression;
mod operators;
mod pending;
mod pieces;
mod statement;

pub use definition::print;
