ghost use Rattle.std.specs.Prelude.{◌≡◌, IfOk};

use crate::request::{Request, Task};
use crate::value::Value;
use lists::Copying;
use std::alloc::AllocError;

/// The same value, the pairs of a Hash in their order. Its texts and lists are shared with the first, so that the copy
/// takes no memory that grows with the value.
pub fn copy(value: &Value) -> Result<Value, AllocError>
    ensures { IfOk result (λ copied. copied ≡ value.now) }
{
    value.copy()
}

/// The same request.
pub fn copy_request(request: &Request) -> Result<Request, AllocError>
    ensures { IfOk result (λ copied. copied ≡ request.now) }
{
    Ok(Request {
        controller: request.controller.copy()?,
        action: request.action.copy()?,
        params: request.params.copy()?,
    })
}

/// The same task.
pub fn copy_task(task: &Task) -> Result<Task, AllocError>
    ensures { IfOk result (λ copied. copied ≡ task.now) }
{
    match task {
        Task::File(path) => Ok(Task::File(path.copy()?)),
        Task::Const(path) => Ok(Task::Const(path.copy()?)),
        Task::Ancestors(path) => Ok(Task::Ancestors(path.copy()?)),
        Task::Request(request) => Ok(Task::Request(copy_request(request)?)),
    }
}
