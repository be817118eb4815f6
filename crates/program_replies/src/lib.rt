//! Applications of the Ruby profile: with its table of built-in methods and its limits nothing is left open. So what is
//! known of an application names only what stands in it, and its replies are told as the profile prints values and
//! errors.
//!
//! | Word | Is | In |
//! |---|---|---|
//! | `profiled` | the application of files, with the profile's built-in methods and limits | `specs/Profiled.antt` |
//! | `rules_of (profiled ..)` | its tasks and their runs: what is known, and who is to blame | `program_theory` |
//! | `reply_of (profiled ..)` | what a request is answered with | `program_theory` |
//!
//! Each law is the contract of a function of [`laws`] that does nothing.
#![tactic(auto)]

pub mod laws;
