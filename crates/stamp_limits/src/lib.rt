//! The limits of an application by the stamps of its files alone, before any file is read: 4,096 files, 4,194,304 bytes
//! in all files together, 255 bytes in each path.
#![tactic(auto)]

mod limits;

pub use limits::exceeded_by;
