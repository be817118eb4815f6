//! The system: one history of events, and the state that follows from it.
//!
//! A `System` stores its history and, beside it, what a look at the whole history would tell: the seats, the table of
//! defined tasks, and the counts. Its invariant is that the history is legal and that all else is the state after it
//! (`IsAfter` of `system_events`). So `System::tells_legal` tells that of any system, and `System::tells_laws` what
//! follows from it.
//!
//! `apply` enters an event, or refuses it by the first true guard of its row and changes nothing. It takes no memory:
//! entries and values are reserved before. No event looks through the history or the table; a task is found by its
//! hash.
//!
//! # An example
//!
//! A seat serves a request that needs one task, after a reload. With one other seat at rest, all these events are done:
//!
//! | Event of seat 0 | The state after it |
//! |---|---|
//! | Share | seat 0 shares |
//! | Take(Unload) | seat 0 is exclusive |
//! | Reload(P) | generation 1, program P, an empty table |
//! | Release | seat 0 shares |
//! | Begin(R) | seat 0 runs R |
//! | Take(Load T) | seat 0 is exclusive |
//! | Define(T, V) | the table has T with V |
//! | Release | seat 0 runs R, with a share |
//! | End(the reply of R on P) | seat 0 shares |
//! | Unshare | seat 0 is at rest |
#![tactic(auto)]

mod apply;
mod fact;
mod guards;
mod moves;
mod reading;
mod system;
mod table;

pub use fact::Fact;
pub use system::System;
pub use system_events::{Act, Applied, Cause, Counts, Entry, Event, Kept, Matter, Want};
pub use system_seats::{Guard, SystemRow};
