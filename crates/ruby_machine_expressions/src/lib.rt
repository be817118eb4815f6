//! How the machine of Ruby code evaluates an expression: it begins a turn, and gives a value, evaluates what stands
//! inside with a frame that waits for it, or calls a method.
#![tactic(auto)]

mod arguments;
mod expression;

pub use arguments::{give_argument, give_receiver};
pub use expression::eval;
