//! What is logged where tasks are defined: the texts of the lines `on_load` of the configuration, when the file of
//! their constant is loaded. A line for a constant that no file spells is never logged.
#![tactic(auto)]

mod logs;

pub use logs::{logs_of, push_logs};
