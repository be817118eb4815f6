//! Scripts that say what the seats of a system do and when files change, read line by line.
//!
//! ```text
//! # two requests and an edit between them
//! write app/controllers/hello_controller.rb
//! |class HelloController
//! |end
//! request 1 /hello/index
//! step 1
//! finish 1
//! remove app/controllers/hello_controller.rb
//! ```
//!
//! | Line | Tells |
//! |---|---|
//! | `write PATH` | a file is written; its content are the lines directly behind that begin with a bar |
//! | `remove PATH` | a file is removed |
//! | `request SEAT TARGET` | a seat has a request; the target has at most 2,048 bytes |
//! | `step SEAT` | the seat makes a step |
//! | `finish SEAT` | the seat makes steps until its request has ended or waits |
//!
//! LF ends each line but the last. One space stands between words. Seats are written as 1 to 64. Empty lines, and those
//! that begin with `#`, count for nothing. [`Script`] reads; what a line tells is `line_told` in `specs/Lines.antt`,
//! and what comes next in a script is `next_turn` in `specs/Reading.antt`. What holds of every instruction that is told
//! is the law [`told_lines_are_of_the_grammar`].
#![tactic(auto)]

mod content;
mod instruction;
mod laws;
mod script;
mod words;

pub use instruction::{Instruction, LineFault, LineKind, Told};
pub use laws::told_lines_are_of_the_grammar;
pub use script::Script;
