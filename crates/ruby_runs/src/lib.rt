//! What the code of an application means: what the run of a task or a request asks for, and what it comes to.
//!
//! A run is a tree of questions: a result, or a task that is asked for and a branch for each value of it. It looks
//! constants up in an index of what files define (`program_places`), and counts turns and frames of methods.
//! No state is kept between questions, so that whoever answers them in whatever order comes to the same.
//!
//! | What | Stands in |
//! |---|---|
//! | results, turns, questions and errors | `specs/Doing.antt` |
//! | built-in methods, and what making a value costs | `specs/BuiltIns.antt` |
//! | names of constants | `specs/Names.antt` |
//! | expressions, statements, methods, calls and `new` | `specs/Bodies.antt` |
//! | files, constants, ancestors and requests | `specs/Runs.antt` |
//!
//! Each law is the contract of a function of [`laws`] that does nothing.
#![tactic(auto)]

pub mod laws;

use ruby_types::CPath;

/// How a request ends that has no reply of its own.
#[derive(Drop)]
pub enum NoReply {
    NoController(CPath),
    NoAction(CPath),
}
