//! What a worker that has a request asks for next, step by step, with nothing of a language or of threads in it.
//!
//! | After | comes |
//! |---|---|
//! | the start | Share, then Check |
//! | Check: the stamps are the same | Begin |
//! | Check: they differ | Take for an unload, Reload, Release, and Resume where the release waits; then Begin |
//! | Check: a fault | Refuse |
//! | Reload: a fault | Release, and Resume where the release waits; then Refuse |
//! | Begin | a Look at the first task that the request's run asks for, or End where it asks for none |
//! | Look: found | a Look at the next task that it asks for, or End |
//! | Look: missing | Load of the task, and then a Look at it again |
//! | Load: failed | End with that error |
//! | End, Refuse | Unshare, and then it is finished |
//!
//! [`Actor::next`] asks exactly for that (`Goes` in `specs/Order.antt`). Where what was found is known and the error of
//! a failed load is the task's blame, the reply at End is the request's, and all known tasks that it asked for were
//! found (`IsOnWay` and `Holds` in `specs/Answers.antt`).
#![tactic(auto)]

mod actor;
mod fitting;
mod op;
mod requests;

pub use actor::{Actor, After, Stage};
pub use op::{Answered, Op};
pub use requests::{Asked, Requests};
