//! What a loader by need runs: the tasks of one generation of an application, by the machine of Ruby code.
//!
//! | Member | Is |
//! |---|---|
//! | rules | those of the program's application (`program_application`) |
//! | a run that goes on, or waits | a `ruby_machine::Machine` |
//! | a key | `task_keys::TaskKey` |
#![tactic(auto)]

mod runner;

pub use runner::RubyRunner;
