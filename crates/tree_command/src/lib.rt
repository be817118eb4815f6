//! The command `tree`: the constants of an application and their files, or why the application is refused.
#![tactic(auto)]

mod fault;
mod laws;
mod listing;
mod rows;

pub use fault::ListingFault;
pub use laws::never_both;
pub use listing::list_tree;
