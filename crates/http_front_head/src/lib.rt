//! The heads of requests, as the first bytes of an input hold them.
//!
//! [`read_head`] is a function of the bytes so far: they are a whole head, or need more bytes, or no whole head can
//! come of them. `httparse` reads the head; what it leaves open is decided here: whether the header lines are too
//! many, and whether bytes end inside a target.
#![tactic(auto)]

mod judging;
mod kind;
mod laws;
mod lines;
mod parts;
mod read;
mod scan;
mod survey;
mod trimming;

pub use laws::heads_are_lawful;
pub use parts::{Head, HeadParts, LONGEST_HEAD, MOST_LINES, Verb};
pub use read::read_head;
