//! What the machine of Ruby code does with the operands of `!`, `&&`, `||` and `? :`, and how it evaluates constants.
#![tactic(auto)]

mod constants;
mod operands;

pub use constants::{begin_constant, give_task};
pub use operands::{give_and, give_choose, give_not, give_or};
