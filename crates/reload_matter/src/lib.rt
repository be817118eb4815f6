//! What a matter owes whose programs are built of files, and are built again where the files change.
//!
//! | Member | Owes |
//! |---|---|
//! | `limit`, `has_stamps` | what the paths and stamps of files say: a limit that they exceed, or a program's files |
//! | `build` | the program of files, or why they give none |
//!
//! So whoever reloads knows nothing of a language, and compares stamps in place: a program whose files have stayed
//! isn't built again, and no list of its files is made.
#![tactic(auto)]

mod reloads;

pub use reloads::Reloads;
