//! What a system keeps of a task of the table.

use system_events::Matter;

/// A task of the table: the place of its Define, whose entry has the task, and its value.
#[derive(Drop)]
pub struct Fact<M: Matter> {
    pub place: u64,
    pub value: M::Value,
}
