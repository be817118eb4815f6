//! What a check of an application reports, and how it is printed.
//!
//! Of files with one ring of loads, the report is printed as
//!
//! ```text
//! post is ready
//! app/lib/a.rb: LoadError: circular load: A::X -> app/lib/b.rb -> B::Y -> app/lib/a.rb
//! A::X: LoadError: circular load: A::X -> app/lib/b.rb -> B::Y -> app/lib/a.rb
//! ```
//!
//! | Lines | Are | Call |
//! |---|---|---|
//! | what was logged | the texts of lines `on_load` | `load_logs` |
//! | failures | a line for each task that stays unknown: its name, and its error | [`failure_lines`] |
//! | `All is good!` | in the place of failures, where there are none | [`Report::bytes`] |
#![tactic(auto)]

mod failures;
mod report;

pub use failures::failure_lines;
pub use report::Report;
