//! The owners of constants, found by their paths.
//!
//! Of the rows `Admin` of file 3, `Admin::User` of file 4 the owner of `Admin::User` is file 4, and `Api` has none.
#![tactic(auto)]

mod owned;
mod owners;

pub use owned::Owned;
pub use owners::Owners;
