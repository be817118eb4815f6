//! The machine that runs Ruby code: the run of a task or a request, which stops where it needs the value of another
//! task and goes on when it is given.
//!
//! ```text
//! let mut machine = Machine::file_task(alloc, &program, &task)?;
//! loop {
//!     match machine.run(&program) {
//!         Ran::Need(task) => machine.supply(value_of(&task))?,
//!         other => return other,
//!     }
//! }
//! ```
//!
//! A machine still does exactly what `ruby_runs` says of its task: `specs/Machines.antt` has what is left of it.
#![tactic(auto)]

mod goes;
mod machine;
mod stage;

pub use machine::{Machine, Ran, Reached};
pub use stage::{Next, Stage, Wait};
