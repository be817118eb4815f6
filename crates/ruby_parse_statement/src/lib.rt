//! Statements of a method, read by recursive descent.
#![tactic(auto)]

mod blocks;
mod body;
mod conditions;
mod simple;
mod statement;

pub use blocks::Block;
pub use body::Body;
pub use statement::statements;
