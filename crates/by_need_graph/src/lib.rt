//! Graphs of tasks: numbers that ask for numbers. What is known of them by rounds over all, as a plain program, and
//! what a loader needs of them.
#![tactic(auto)]

pub mod beside;
pub mod blame;
pub mod graph;
pub mod program;
pub mod rounds;

pub use beside::{check_alone, load_alone, load_beside_rounds};
pub use blame::blame_by_rounds;
pub use graph::{Body, Ending, Graph};
pub use program::{Run, Values};
pub use rounds::{known_values, run_task};
