//! The value under a shop's turn lock: one system, and the room that is set aside for each of its 64 seats.
//!
//! Each method of a `Desk` makes at most one event, of one seat, and says the seat's row after it; all other rows stay.
//! So a turn of the lock is `enter`, one such method, and `leave`.
//!
//! # Room
//!
//! An event takes no memory: the system's room for entries and values is reserved before. Two numbers of each seat say
//! how much of that room is set aside for it, and what the system has reserved is at least what all seats have
//! together.
//! So nobody uses the room of another seat, and a call that closes something can't fail for want of memory.
//!
//! | After | Entries set aside | For |
//! |---|---|---|
//! | `share` | 1 | the Unshare |
//! | `begin` | 4 | the End or Refuse, one pair of Yield and Retake, and the Unshare |
//! | `load`, which takes | 2 more | the Release and the Resume |
//! | `load`, which seeks | 3 more | the Take, the Release and the Resume |
//! | `end`, `abandon` | 1 | the Unshare |
//! | `unshare` | none | |
#![tactic(auto)]

mod desk;
mod loading;
mod permits;
mod reading;
mod reloading;
mod running;
mod spares;

pub use desk::Desk;
pub use loading::Loading;
pub use reloading::Reloading;
pub use running::BeginFault;
pub use spares::Spares;
