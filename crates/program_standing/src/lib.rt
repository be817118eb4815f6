//! What stands at constant paths, and how names are found by it.
//!
//! Where file 0 owns `A` and `A::X`, and file 1 owns `A::B`, the name `X` in the scopes `A::B` and `A` is `A::X` of
//! the other file 0, in the scope `A` it is the own constant `A::X`, and in the scope `A::B` alone it is missing.
#![tactic(auto)]

mod resolved;
mod search;
mod standing;
mod standings;

pub use resolved::Resolved;
pub use standing::Standing;
pub use standings::Standings;
