//! The table of what a file defines, so that what counts a second time is found without a scan.
//!
//! Each path has one number, and what is done to a path is kept by its number. So time and memory are those of the
//! names that are written, however long the paths are that they stand in.
#![tactic(auto)]

mod act;
mod acts;
mod deeds;
mod marks;
mod paths;

pub use act::Act;
pub use marks::Marks;
