//! The frames of the machine that runs Ruby code: each waits for a value, and all stand in one vector. What a frame
//! does with its value is defined by what the code means; and steps that put frames on top keep what there is to do.
//!
//! `specs/Rest.antt` says what a machine still does.
#![tactic(auto)]

mod frames;
mod members;
mod stack;

pub use frames::{Caller, Control, Frame, Stop};
pub use members::{first_arm, first_item, first_pair};
pub use stack::{Core, push, stop_with};
