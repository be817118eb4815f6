//! One system that many threads share: a `Shop`, and the passes with which they call it.
//!
//! Each call takes turns of the turn lock. In a turn it enters at most one event of its own seat, and what it says is
//! an equation on the pass: what it has seen grew by entries of others and then by that event, and its row is this one.
//! So a caller knows at its next turn what it knew at its last.
//!
//! | Call | Its events |
//! |---|---|
//! | `start_running`, `done_running` | Share; Unshare |
//! | `begin`, `end`, `refuse`, `abandon` | Begin; End; Refuse; Refuse for want of memory |
//! | `permit_begin`, `permit_end` | Yield; Retake |
//! | `start_loading` | Take, Seek or none, as it answers `Taken`, `Seeking` or `Present` |
//! | `try_loading`, `await_loading` | Take or none; Take |
//! | `define` | Define |
//! | `done_loading`, `leave_section` | Release, and Resume where others go first |
//! | `room`, `lookup`, `program`, `split`, `join` | none |
//!
//! `turn` is for calls that other crates add: one turn, in which a [`TurnAct`] is done.
//!
//! Who finds a share or the exclusive side busy sleeps until another turn has changed that (`Bell`). What closes
//! something takes no memory and can't fail: its room was set aside by what opened it.
//!
//! # An example
//!
//! A pass of a new shop serves one request. It has seen the opening Reload, which is at place 0:
//!
//! | Call | Its row then | Entries set aside |
//! |---|---|---|
//! | `start_running` | shares | 1 |
//! | `begin`, which answers 2 | runs the request whose Begin is at place 2 | 4 |
//! | `end` | shares | 1 |
//! | `done_running` | rests | 0 |
//!
//! If its request needs a task that isn't loaded yet, it loads it between `begin` and `end`:
//!
//! | Call | Its row then | Entries set aside |
//! |---|---|---|
//! | `start_loading`, which answers `Taken` | is exclusive for the load | 6 |
//! | `room` for one value | is exclusive for the load | 7, and one value |
//! | `define` | is exclusive for the load | 6 |
//! | `done_loading` | runs the request | 4 |
//!
//! Where `start_loading` answers `Seeking` the pass has put its share aside, and `await_loading` takes the load as soon
//! as the others have put theirs aside or given them back.
#![tactic(auto)]

mod bell;
mod copies;
mod leaving;
mod loading;
mod pass;
mod permits;
mod reading;
mod receipt;
mod running;
mod shop;
mod turn_acts;

pub use copies::Copies;
pub use pass::Pass;
pub use receipt::Receipt;
pub use shop::Shop;
pub use shop_desk::{BeginFault, Loading};
pub use turn_acts::TurnAct;
pub use turn_lock::SplitFault;
