//! What a check for changed files enters in the turns of its own: `open_unload` in its first, and `reload` in the one
//! that tries a program. Whatever they answer, a row of a seat that was exclusive is then what it was.
#![tactic(auto)]

mod opening;
mod reloading;

pub use opening::{Opening, open_unload};
pub use reloading::reload;
