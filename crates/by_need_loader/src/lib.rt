//! A loader that runs tasks on demand, and comes to what rounds over all tasks come to: what is known, and who is to
//! blame for the rest (`by_need`). It runs only what a wanted task needs.
//!
//! # An example
//!
//! The task `a` asks for `b` and `c`, `b` is done with 1, `c` asks for `e`, `e` for `d` and `d` for `e`. This is a load
//! of `a` over an empty table, step by step.
//!
//! | `step` tells | What its caller does | Open tasks |
//! |---|---|---|
//! | `Look(a)` | `answer(None)`, since its table lacks `a` | |
//! | `Look(b)` | `answer(None)` | `a` |
//! | `Define(b, 1)` | puts 1 at `b` into its table | `a` |
//! | `Look(b)` | `answer(Some(1))` | `a` |
//! | `Look(c)` | `answer(None)` | `a` |
//! | `Look(e)` | `answer(None)` | `a`, `c` |
//! | `Look(d)` | `answer(None)` | `a`, `c`, `e` |
//! | `Look(e)` | `answer(None)` | `a`, `c`, `e`, `d` |
//! | `Failed(Circle([d, e]))` | | |
//!
//! The last look is at a task whose load is open. So the tasks from there on ask for one another in a ring. It is named
//! from its least task, and those before it, `a` and `c`, are no part of it. What was defined on the way stays.
//!
//! [`load`] does all steps over one table, and [`load_noting`] notes what is defined on the way besides.
//!
//! # How it works
//!
//! A [`Loader`] has the open tasks in asking order, the waiting run of each, and their keys in an `IndexSet`, which
//! finds the place of a key without a search. So a load takes as many turns as its runs ask questions, however deep
//! they nest, and no recursion. Contracts see a `Loader` as a `Progress`: the open tasks, their runs, their keys, and
//! what comes next.
//!
//! The caller has the table, so that it may be one that others share, and the program is handed to each `step`, so that
//! a loader may be kept beside it. `answer` needs neither.
//!
//! # What a program owes
//!
//! [`Program`] is a theory whose runs are suspended at their questions.
//!
//! | Member | Owes |
//! |---|---|
//! | `begin` | a run of which the task's whole tree is left |
//! | `run` | the end, or the next question and a waiting run that has its branches |
//! | `supply` | a run of which the branch of the value is left |
//! | `copy_task` | the same task |
//! | `key_of` | what tells the tasks of the program apart |
//! | `at_most` | the order of the tasks of the program |
//!
//! Of `begin`, of keys and of the order nothing is owed where something is no task of the program, as a request is not.
//! Each call but `at_most` may lack memory, and then the load ends with that.
//!
//! # What is proved
//!
//! For every table that is part of what is known: the load ends, done exactly where the task is known, else failed with
//! its blame, whatever was loaded before and whichever task of a ring is wanted. The table stays part of what is known,
//! only grows, gains only what the wanted task needs, in the order of a load, and on `Done` has the task. The steps,
//! with each look answered by the table, tell the same, and each leaves less to do.
#![tactic(auto)]

pub mod loader;
pub mod program;
mod ring;
pub mod table;
pub mod whole;

pub use loader::{Failure, LoadStep, Loader};
pub use program::{Next, Program};
pub use table::Table;
pub use whole::{Loaded, load, load_noting};
