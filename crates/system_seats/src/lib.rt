//! The seats of a system: who runs a request, who loads, unloads, yields and waits, event by event.
//!
//! The lock underneath is `share_lock` with the purposes of `interlock`. A system uses less of it than there is: a seat
//! shares at most once, has at most one open yield, and is exclusive at most once. So each seat is always in one of ten
//! shapes, which `specs/Shapes.antt` lists, and no more than one seat is exclusive.
//!
//! Here stand the guards and effects of those events that look at the seats. `SeatTable::share_guard` and its kin read
//! the first true guard of their event, and `SeatTable::share` and its kin do the event, which asks that no guard is
//! true.
//!
//! | Event | From | To |
//! |---|---|---|
//! | Share | rests | shares |
//! | Unshare | shares | rests |
//! | Begin | shares | runs |
//! | End | runs | shares |
//! | Yield | runs | yields |
//! | Retake | yields | runs |
//! | Seek | runs, for a load; shares, for an unload | seeks |
//! | Take | runs, shares or seeks | loads, unloads |
//! | Release | loads, unloads | runs, shares; or it leaves, while another seat goes first |
//! | Resume | leaves | runs, shares |
#![tactic(auto)]

mod effects;
mod guard;
mod guards;
mod table;

pub use guard::{Guard, Marks, Purpose};
pub use table::{SeatTable, SystemRow};
