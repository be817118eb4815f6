//! The table that a load fills.
ghost use Rattle.std.specs.Prelude.{◌≡◌, Option, None, Some, OnOk, OnErr, option_copied};

use std::alloc::AllocError;

/// The values of tasks.
pub trait Table<T, V> {
    ghost at: { Self → T → Option V };

    fn defined(&self, task: &T) -> Option<&V>
        ensures { option_copied result ≡ at self.now task.now };

    /// Adds the value of a task that is not there.
    fn define(&mut self, task: T, value: V) -> Result<(), AllocError>
        requires { at self.old task ≡ None }
        ensures new { OnOk result (at self.new task ≡ Some value) }
        ensures old { OnOk result ((u : T) → (u ≡ task → ⊥) → at self.new u ≡ at self.old u) }
        ensures err { OnErr result (at self.new ≡ at self.old) };
}
