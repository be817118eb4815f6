//! The bodies of methods in one flat table, whose nodes stand for the trees that they were made of.
//!
//! A node is an expression, or the members of a list from one on: the statements of a body, the arms of an `if`, the
//! items of an array or the arguments of a call, the pairs of a hash, the pieces of a text. Its children are nodes
//! before it, so that a place in code is one number, and the table is dropped without recursion.
#![tactic(auto)]

mod expression;
mod statement;
mod table;

pub use expression::{push_expr, push_items, push_pairs, push_parts};
pub use statement::{push_arms, push_body};
pub use table::{Node, NodeTable};
