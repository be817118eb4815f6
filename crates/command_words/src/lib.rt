//! Command lines, without the program's name: which words there are, and the command that they spell.
#![tactic(auto)]

mod words;

pub use words::{Command, CommandName, parse_words};
