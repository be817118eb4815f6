//! Runs of the commands that end by themselves: a command line over an application's files, answered on a sink. What is
//! answered to a question on the files is that of an [`Answers`] that is handed in.
//!
//! | Step | Call | Reads or writes |
//! |---|---|---|
//! | The words are read | `command_words::parse_words` | nothing |
//! | What the command asks, or its answer where no file decides it | `wanted_of` | nothing |
//! | The files | `Tree::read_all` of the tree that is handed in | the tree, once |
//! | The answer to the question on these files | `Answers::answer_to` | nothing |
//! | The bytes go out | `outside::write_all` | the sink |
//!
//! | Outcome | Status | Written |
//! |---|---|---|
//! | Done, Negative, Refused, NotBuilt | 0, 1, 6, 11 | all of the answer |
//! | WriteFault | 4 | a proper beginning of the answer |
//! | FaultyWords, FilesUnread, Memory | 2, 3, 5 | nothing |
#![tactic(auto)]

mod answer;
mod outcome;
mod runs;

pub use answer::{Answer, Answers, Question, Wanted, wanted_of};
pub use outcome::Outcome;
pub use runs::run_command_line;
