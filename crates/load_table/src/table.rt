ghost use Rattle.std.specs.Prelude.{◌≡◌, ◌<◌, ◌≤◌, ◌+◌, false, None, Some, OnOk, option_copied};
ghost use Rattle.load_table.specs.Tables.{room, value_in};
ghost use Rattle.task_keys.specs.Names.{IsLoad};

use indexmap::IndexMap;
use ruby_types::{Task, Value};
use std::alloc::{AllocError, Global};
use task_keys::{TaskKey, TaskRef};

/// The values of tasks, each found without a search. Requests have none.
#[derive(Drop)]
pub struct Table {
    values: IndexMap<TaskKey, Value>,
}

impl Table {
    /// A table without values.
    pub fn new(alloc: Global) -> Self
        ensures { value_in result ≡ (λ task. None) }
    {
        Table {
            values: IndexMap::new(alloc),
        }
    }

    /// The value of a task. It takes no memory.
    pub fn defined(&self, task: &Task) -> Option<&Value>
        ensures { option_copied result ≡ value_in self.now task.now }
    {
        self.values.get(TaskRef { task })
    }

    /// Makes room for so many more values.
    pub fn reserve(&mut self, count: u32) -> Result<(), AllocError>
        ensures same { value_in self.new ≡ value_in self.old }
        ensures room { OnOk result (count ≤ room self.new) }
    {
        self.values.reserve(count as usize)
    }

    /// Adds the value of a task that isn't there, in room that was made for it. It takes no memory.
    pub fn define(&mut self, task: Task, value: Value)
        requires load { IsLoad task }
        requires room { 0 < room self.old }
        requires lacks { value_in self.old task ≡ None }
        ensures new { value_in self.new task ≡ Some value }
        ensures old { (other : Task) → (other ≡ task → ⊥) → value_in self.new other ≡ value_in self.old other }
        ensures room { room self.old ≤ room self.new + 1 }
    {
        match self.values.insert(TaskKey { task }, value) {
            Ok(_) => {}
            Err(_) => unreachable!(),
        }
    }
}

fn is_request(task: &Task) -> bool
    ensures { result ≡ false → IsLoad task.now }
{
    matches!(task, Task::Request(_))
}

impl by_need_loader::Table<Task, Value> for Table {
    ghost at = { value_in };

    fn defined(&self, task: &Task) -> Option<&Value> {
        Table::defined(self, task)
    }

    /// A request finds no room.
    fn define(&mut self, task: Task, value: Value) -> Result<(), AllocError> {
        if is_request(&task) {
            return Err(AllocError);
        }
        self.reserve(1)?;
        Table::define(self, task, value);
        Ok(())
    }
}
