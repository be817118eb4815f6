//! What the trees of files write, entry by entry, in text order.
//!
//! Of `module A::B`, `X = nil`, `class C < D`, `end`, `end` the entries are the opening of `A::B` outside of any scope,
//! the assignment of `A::B::X` in the scope `A::B`, and the opening of `A::B::C` with the parent `D` in that scope.
#![tactic(auto)]

mod entry;
mod walk;

pub use entry::{Entry, Scopes, What};
pub use walk::entries_of;
