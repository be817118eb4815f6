//! A request that a pass runs: from its Begin to its reply.
//!
//! [`reply_of`] asks the request's actor for one operation after another, and answers it by the calls of a pass: a
//! look by the table, a load by a whole load section. [`PassCalls`] says what it needs of the pass. What the request
//! makes on the way are load sections alone, each of a task that it asks for. What comes back is the reply with which
//! it may end.
//!
//! # An example
//!
//! A request asks for `a`, which the table lacks, and replies `hi`:
//!
//! | Asked | Call | Answered |
//! |---|---|---|
//! | Look(`a`) | `lookup` | Missing |
//! | Load(`a`) | `load`: Take, Define, Release | Done |
//! | Look(`a`) | `lookup` | Found |
//! | End(`hi`) | none, `reply_of` answers `hi` | |
#![tactic(auto)]

mod calls;
mod replying;

pub use calls::PassCalls;
pub use replying::reply_of;
