//! The values that the machine of Ruby code makes, which cost turns by their size, and those that it tests.
#![tactic(auto)]

mod making;
mod sizes;
mod truth;

pub use making::made;
pub use sizes::without_size;
pub use truth::{boolean, is_truthy};
