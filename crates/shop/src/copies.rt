//! Copies of what a pass keeps, and of what it is given.
ghost use Rattle.std.specs.Prelude.{◌≡◌, IfOk};

use std::alloc::AllocError;
use system_core::Matter;

/// A matter whose tasks and values can be copied.
pub trait Copies: Matter {
    fn copy_task(task: &Self::Task) -> Result<Self::Task, AllocError>
        ensures { IfOk result (λ copied. copied ≡ task.now) };

    fn copy_value(value: &Self::Value) -> Result<Self::Value, AllocError>
        ensures { IfOk result (λ copied. copied ≡ value.now) };
}
