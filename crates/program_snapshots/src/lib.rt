//! What is told of a snapshot before its Ruby is read: why it has no program, which file is that of which constant, and
//! whether stamps are those of its files.
//!
//! [`site`] judges the limits, then the configuration, then the names of the files. Of `app/models/user.rb` beside
//! `app/models/admin/user.rb` it tells that the first file is that of `User` and the second that of `Admin::User`.
#![tactic(auto)]

mod fault;
mod numbers;
mod sited;
mod siting;
mod stamps;

pub use fault::{ProgramFault, Which};
pub use numbers::number_of;
pub use sited::Sited;
pub use siting::site;
pub use stamps::are_stamps_of;
