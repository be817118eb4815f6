//! An open request of a seat, between the operation that it asks for and the system that answers.
//!
//! | Call or law | Says |
//! |---|---|
//! | [`enter`] | an act of the seat is its step, or a guard, which may be a limit, refuses it and nothing changes |
//! | [`ask_next`] | a request that is ready for an answer stands at what it asks for next, which is its order's |
//! | [`standing_requests_are_allowed`] | where a request stands at a Begin, a load, an End or a Refuse, it may come |
//! | [`standing_requests_stay`] | a request stands still, whatever step is made that doesn't end it |
//!
//! What `stands` means is `IsStanding` in `specs/Standing.antt`: before its Begin the request is one that may begin;
//! from its Begin to its End the seat runs it on the program in force, it is on its way, what it found is in the
//! table, and what it was asked for last holds of it.
#![tactic(auto)]

mod asking;
mod entering;
mod laws;

pub use asking::ask_next;
pub use entering::{Entered, enter};
pub use laws::{standing_requests_are_allowed, standing_requests_stay};
