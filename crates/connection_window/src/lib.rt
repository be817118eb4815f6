//! A window on the bytes of a connection that came in and were not used up.
//!
//! The bytes lie in a place of a fixed size, so memory is bounded however long a connection lives. Using bytes up moves
//! the window's beginning and copies nothing. Only where the window reaches the place's end is it moved to the place's
//! beginning, and it is shorter than half of the place then: so no more bytes are copied than were used up, whatever
//! the pieces in which they come in.
//!
//! | Call | On the window `ab`, the link having `cdef` left and giving 2 bytes a read |
//! |---|---|
//! | `use_up(1)` | `b` |
//! | `fill(link)` | `bcd`, and the link has `ef` left |
#![tactic(auto)]

#[cfg(test)]
mod tests;
pub mod window;

pub use window::{Filled, Window};
