//! How the machine of Ruby code makes arrays, hashes and texts: what is inside is evaluated part by part, each with a
//! frame that holds what is done.
#![tactic(auto)]

mod arrays;
mod hashes;
mod parts;
mod texts;

pub use arrays::{begin_array, give_item};
pub use hashes::{begin_hash, give_key, give_pair};
pub use texts::{begin_text, give_inside};
