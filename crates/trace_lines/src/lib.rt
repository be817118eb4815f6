//! The lines that tell what the steps of seats came to, of which the output of a replay is made.
//!
//! | Step | Line of seat 0 |
//! |---|---|
//! | `Step::Share` | `1 share` |
//! | `Step::LookMissing(b"Post")` | `1 look Post missing` |
//! | `Step::Reload(2)` | `1 reload 2` |
//! | `Step::End(200, 1, b"hi")` | `1 end 200 1 "hi"` |
//!
//! [`step_line`] writes them. Beside them stand `log TEXT` for each text that a definition logs, and `line N` for a
//! line of a script that can't be read.
#![tactic(auto)]

mod line;
mod step;

pub use line::{bad_line, log_line, step_line};
pub use step::Step;
