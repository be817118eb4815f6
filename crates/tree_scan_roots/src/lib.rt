//! The roots of an application's tree: the directories below which a path spells a constant.
//!
//! [`RootTable::new`] makes them of a snapshot's files and the configuration's root lines, and [`RootTable::above`]
//! finds the longest one that stands above a path.
#![tactic(auto)]

mod building;
mod directories;
mod numbers;
mod roots;
mod table;

pub use roots::{Root, Roots, RootsFault, path_shown};
pub use table::RootTable;
