//! The check for changed files, which puts a new program into force where they have changed.
//!
//! [`check_and_reload`] reads files and builds programs between turns, and never inside one. Where nothing has changed
//! it asks the tree for stamps once, compares them in place in one turn, and makes no event.
//!
//! | Turn | Done in it (`acts`) | Its events |
//! |---|---|---|
//! | the first | `OpenUnload`: compares, and takes or seeks an unload where the stamps differ | none, Take or Seek |
//! | until the unload is taken | `TakeSought` | none, or Take |
//! | the second look | `CompareStamps`, with what was read meanwhile | none |
//! | the try | `TryProgram`, unless it has the stamps in force or meets a limit | none, or Reload |
//! | leaving | `leave_section` of the shop | Release, and Resume where others go first |
//!
//! # An example
//!
//! A file has changed since generation 3, and nobody else runs. The pass enters Take, Reload, Release, and the answer
//! is `Reloaded(4)`. A second check reads the same stamps, enters nothing, and answers `Same`.
#![tactic(auto)]

mod acts;
mod check;
mod looking;
mod unloading;

pub use check::check_and_reload;
pub use reload_checks::{Checked, ReloadFault};
