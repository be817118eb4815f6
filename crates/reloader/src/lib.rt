//! Hooks that stand around each request, and the check whether files have changed.
//!
//! It is Rails' Executor: application code runs inside a wrap, and hooks are called where the outermost wrap begins and
//! ends (the Rails guide "Threading and Code Execution", section Executor). Hooks run in the order in which they were
//! registered, before and after alike. A reload inside a wrap calls each hook's `prepare`, as Rails' Reloader does with
//! its `to_prepare` callbacks.
//!
//! # What is known of a hook
//!
//! Nothing but that a call leaves the hook and the notes that the two before it determine (`Hook`). So what an executor
//! does is said for any hooks: which of them are called, and in which order.
//!
//! # An example
//!
//! Two hooks note 1 and 2 in `before`, and 3 and 4 in `after`:
//!
//! | Call | The depth after it | The notes after it |
//! |---|---|---|
//! | `begin_wrap` | 1 | 1, 2 |
//! | `begin_wrap` | 2 | 1, 2 |
//! | `end_wrap` | 1 | 1, 2 |
//! | `end_wrap` | 0 | 1, 2, 3, 4 |
#![tactic(auto)]

mod boxed;
mod calls;
mod executor;
mod hook;
mod notes;
#[cfg(test)]
mod tests;
mod update_check;
mod wrapping;
mod wraps;

pub use executor::Executor;
pub use hook::Hook;
pub use notes::Notes;
pub use update_check::UpdateCheck;
pub use wrapping::Wrapping;
pub use wraps::Wraps;
