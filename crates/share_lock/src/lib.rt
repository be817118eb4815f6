//! Who may run, load and unload at the same time, as a pure table over seats. It is written after ActiveSupport's
//! ShareLock, with its threads as seats and its waiting as an answer: no call waits, and each returns what to do next.
//!
//! # What a seat has
//!
//! A lock has 1 to 64 seats, numbered from 0. Each has a `Row`: its shares, the wait it is in, what its open yields put
//! aside, and its phase. Besides, at most one seat is exclusive, once or several times over.
//!
//! A wait has a purpose, 0 to 6, and a list, a byte: bit p of it admits the purpose p, bit 7 new shares. A seat
//! without a
//! purpose waits for nothing of its own; it only lets others go first.
//!
//! | Word | Means |
//! |---|---|
//! | busy for a share of bit b | another seat is exclusive, or waits with a list that lacks b |
//! | busy for the exclusive side, purpose p | busy for a share of bit p, or another seat has shares |
//! | eligible by a list | some seat waits with a purpose in the list that every other waiting seat's list has |
//!
//! # The calls
//!
//! | Call | Does |
//! |---|---|
//! | `start_sharing`, `stop_sharing` | take and give back a share |
//! | `start_exclusive`, `stop_exclusive` | become exclusive, or seek to; end it, or let eligible seats go first |
//! | `yield_shares`, `retake` | put the shares aside and admit others; take them back |
//! | `try_resume` | tries again for a seat that seeks or lets others go first |
//!
//! A seat that has to wait puts its shares aside (it yields), so that two seats that both share can both seek: the
//! second
//! yields what the first waits for. A yield inside another keeps what both admit, and takes back only its own.
//!
//! Each call has a condition, which `can_share` and its kin read, and its contract says both its answers and the whole
//! lock after it. Beside an exclusive seat no other seat has a share: `exclusive_is_alone`.
//!
//! # An example
//!
//! Seats 0 and 1 share. Both seek purpose 0 and admit it (list 1).
//!
//! | Call | Answer | Since |
//! |---|---|---|
//! | `start_exclusive(0, 0, 1, false)` | `Seeking` | seat 1 has a share; seat 0 puts its own aside |
//! | `start_exclusive(1, 0, 1, false)` | `Taken` | nobody else has shares, and seat 0's list admits purpose 0 |
//! | `try_resume(0)` | `Still` | seat 1 is exclusive |
//! | `stop_exclusive(1, 1)` | `Waiting` | seat 0 waits with a purpose in the list, so it goes first |
//! | `try_resume(0)` | `Resumed` | seat 0 is exclusive, and has its share again |
//! | `stop_exclusive(0, 1)` | `Free` | seat 1 waits without a purpose |
//! | `try_resume(1)` | `Resumed` | nobody is exclusive or eligible; seat 1 has its share again |
#![tactic(auto)]

mod answers;
mod conditions;
mod counts;
mod lock;
mod row_list;
mod saved_list;
mod seat;

pub use answers::{Holds, Resume, Share, Start, Stop};
pub use lock::{LockState, another_is_some_other_seat, exclusive_is_alone};
pub use row_list::Rows;
pub use saved_list::SavedList;
pub use seat::{Phase, Row, Saved, Wait};
