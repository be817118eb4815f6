//! What is told of each file that an application uses: its fault, if it has one, and its tasks.
//!
//! Of `app/lib/a.rb` with `module A`, `X = 1`, `end` there is no fault, and the tasks are the file, `A`, its ancestors
//! and `A::X`. Of an empty `app/lib/a.rb` the fault is that it doesn't define `A`.
#![tactic(auto)]

mod outcome;
mod outcomes;

pub use outcome::Outcome;
pub use outcomes::outcomes_of;
pub use program_tasks::Tasks;
