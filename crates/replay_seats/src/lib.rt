//! The system, the files and the seats of a replay: each of 64 seats has a request at a time, and makes one step after
//! another in whatever order they are asked to.
//!
//! | Call | Does |
//! |---|---|
//! | [`Replay::new`] | begins without files and requests |
//! | [`Replay::write`], [`Replay::remove`] | edit the files |
//! | [`Replay::open`] | gives a seat without a request one |
//! | [`Replay::turn`] | makes a step of a seat, and says what it told |
//!
//! What a step comes to is `Turns` in `specs/Turning.antt`. A step of a seat that goes on enters something, or leaves
//! fewer steps that don't. After want of memory a replay is only dropped.
#![tactic(auto)]

mod outcome;
mod replay;
mod seats;
mod turn;

pub use replay::Replay;
pub use turn::{Told, Turn};
