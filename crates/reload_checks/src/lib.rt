//! Checks for changed files: the looks at a tree of files, what a whole check answers and enters, and its laws.
//!
//! # A check
//!
//! It reads the stamps of the tree. Where a limit is exceeded, or where they are those of the program in force, that is
//! all. Else it takes an unload, which waits until nobody else runs, and looks again: while it waited, another check
//! may have reloaded, and files may have changed once more. Where the stamps still differ, all files are read and their
//! program is built, both between turns; one turn more puts the program into force. Then the unload is released in each
//! case, whatever was refused meanwhile.
//!
//! | Word (`specs/Checks.antt`) | Says |
//! |---|---|
//! | `in_force` | whether stamps are those of the program in force after a history |
//! | `NoStamps`, `NoProgram` | why a tree leads no further |
//! | `Look` | what was read, answered and entered while the seat was exclusive |
//! | `Check` | the same of the whole check |
//! | `IsCourse` | its own events, in order, by its answer |
//! | `IsFresh` | stamps were in force at one of its turns, and no Reload of its own came after |
//!
//! # An example
//!
//! A file has changed, and another request runs:
//!
//! | Turn | Event |
//! |---|---|
//! | compares the stamps, which differ | Seek |
//! | the other request has ended | Take |
//! | compares the stamps that it reads now, which differ | none |
//! | tries the program | Reload |
//! | leaves | Release |
#![tactic(auto)]

mod answers;
mod looks;

pub use answers::{Checked, ReloadFault};
pub use looks::{read_program, read_stamps};
