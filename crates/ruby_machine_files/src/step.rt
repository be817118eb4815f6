use ruby_types::{Task, Value};

/// What the run of a task comes to next: its value, or a question, and what waits for the answer.
#[derive(Drop)]
pub enum TaskStep<W> {
    Done(Value),
    Asks(Task, W),
}
