//! What is read of the system in a turn. Nothing here takes memory.
ghost use Rattle.std.specs.Prelude.{◌≡◌, ◌<◌, length, Some, slice_get, option_map};
ghost use Rattle.system_core.specs.Tables.{lookup};

use crate::desk::Desk;
use system_core::{Entry, Matter};

impl<M: Matter> Desk<M> {
    /// The value of a task of the table.
    pub fn value(&self, task: &M::Task) -> Option<&M::Value>
        ensures { option_map (λ value. value.now) result ≡ lookup M.facts task.now self.now.state.table }
    {
        self.system.value(task)
    }

    /// The entry at a place of the history.
    pub fn entry(&self, place: u64) -> &Entry<M>
        requires { place < length self.now.state.history }
        ensures { slice_get self.now.state.history place ≡ Some result.now }
    {
        self.system.entry(place)
    }
}
