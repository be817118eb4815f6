//! Which files of an application are used, and what their texts are.
//!
//! A file is used that is the file of a constant: of those that spell the constant the first by root and then by path.
//! Its text has a tree, or a first fault, which is told by its place and by words. Reading texts is another's.
#![tactic(auto)]

mod constants;
mod rows;
mod text;
mod used;

pub use constants::used_constants;
pub use rows::read_files;
pub use text::FileText;
pub use used::UsedText;
