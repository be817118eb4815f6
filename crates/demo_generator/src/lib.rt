//! A made application and a made schedule of its requests, by one number: the same number gives the same again.
//!
//! The application of `n` has `n` modules, each of which but the first needs one before it, and a controller with an
//! action for each. The schedule gives `4 * n` requests to four seats, in turns that are drawn by chance, and now and
//! then edits the first module's file.
//!
//! | Call | Gives |
//! |---|---|
//! | [`module_path`], [`module_text`] | the file of a module |
//! | [`edited_text`] | the file of the first module with another value |
//! | [`controller_text`] | the controller's file, at [`CONTROLLER_PATH`] |
//! | [`Schedule::turn`] | what the next turn does |
#![tactic(auto)]

mod files;
mod schedule;

pub use files::{
    CONTROLLER_PATH, action_target, controller_text, edited_text, module_path, module_text,
};
pub use schedule::{Schedule, Turn};
