//! What the parser stands on: the words that are left, what single words stand for, and the
//! variables of a method.
#![tactic(auto)]

mod cursor;
mod fault;
mod locals;
mod numbers;
pub mod terminals;
mod texts;
mod word;

pub use cursor::Cursor;
pub use fault::Fault;
pub use locals::Locals;
pub use numbers::number_value;
pub use texts::plain_part;
pub use word::{Word, before_colon, behind_sign, ends_in_suffix};
