//! The calls that the program runs: a command line over an application's files, answered on a sink.
//!
//! # A command line on its way
//!
//! ```text
//! words      get /hello/index
//! command    Command::Get("/hello/index")
//! question   Question::Reply(Target { controller: "hello", action: "index" })
//! answer     Answer { bytes: "HTTP/1.1 200 OK ..", outcome: Outcome::Done }
//! outcome    Outcome::Done, whose exit status is 0
//! ```
//!
//! | Step | Call | Reads or writes |
//! |---|---|---|
//! | The words are read | `command_words::parse_words` | nothing |
//! | What the command asks, or that it is not built yet | `answer::question_of` | nothing |
//! | The files | `Tree::read_all` of the tree that is handed in | the tree, once |
//! | The answer to the question on these files | `answer::answer_to` | nothing |
//! | The bytes go out | `outside::write_all` | the sink |
//!
//! So all that is decided is decided by functions of the words and the files. A command that is not built yet is told
//! by its words, and the tree isn't read for it.
//!
//! # How it ends
//!
//! | Outcome | Status | Written |
//! |---|---|---|
//! | Done, Negative, Refused, NotBuilt | 0, 1, 6, 11 | all of the answer |
//! | WriteFault | 4 | a proper beginning of the answer |
//! | FaultyWords, FilesUnread, Memory | 2, 3, 5 | nothing |
//!
//! `NotBuilt` says what is not built: the command, the target, the application's size or the file. `once_main` gives
//! the
//! status alone. Both calls have the same clauses, which speak of a tree that tells the files that it holds; of one
//! that
//! doesn't, they say what the counts of faults do. A fault that is counted is an answer `Failed` of the tree or the
//! sink.
#![tactic(auto)]

pub mod answer;
pub mod once;
pub mod outcome;
pub mod target;

pub use once::{once_main, run_once};
pub use outcome::{Outcome, Unbuilt};
