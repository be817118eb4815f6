//! That an open request can't go on for ever without an entry: a step of it enters one, or leaves fewer such steps.
//!
//! A check, a reload that finds nothing new, and looks enter nothing. How many of them may follow one another is
//! `quiet` in `specs/Quiet.antt`, and the law is [`open_requests_make_progress`].
#![tactic(auto)]

mod laws;

pub use laws::open_requests_make_progress;
