//! What a step of a seat does at each operation of its request, and the line that tells it.
//!
//! | Operation | A step does |
//! |---|---|
//! | Share, Resume, Begin, End, Refuse, Unshare | enters the event, or waits where a guard refuses it |
//! | Check | reads the stamps of the files: the same as those in force, others, or beyond a limit |
//! | Take | becomes exclusive; where that is busy, seeks to; else waits |
//! | Reload | builds the program of the files and enters it; nothing where its stamps are in force, or it has a fault |
//! | Release | is exclusive no more; it waits where others go first |
//! | Look | finds the task in the table, or doesn't |
//!
//! A limit of requests, replies, generations or kept bytes tells nothing. [`operate`] makes the step of an operation,
//! [`take`] that which opens a section; what they come to is `Does` and `Takes` in `specs/Coming.antt`.
#![tactic(auto)]

mod came;
mod entering;
mod exclusive;
mod files;
mod operating;

pub use came::{AnswerOf, Came, CameOf, Taking, Tried};
pub use entering::{act, look};
pub use exclusive::{release, take, waits_behind_release};
pub use files::{check, reload};
pub use operating::operate;
