ghost use Rattle.std.specs.Prelude.{◌≡◌, map, IfOk};
ghost use Rattle.eager_report.specs.Failures as spec;

use load_replies::push_task_name;
use ruby_builtin_base::error_text;
use ruby_types::{RubyError, Task, Text, TextList};
use std::alloc::{AllocError, Global};

/// The line of a task that stays unknown for this reason, without its end.
fn failure_line(alloc: Global, task: &Task, error: &RubyError) -> Result<Text, AllocError>
    ensures { IfOk result (λ line. line ≡ spec.failure_line (task.now, error.now)) }
{
    let told = error_text(alloc, error)?;
    let mut line = Vec::new(alloc);
    push_task_name(&mut line, task)?;
    line.extend_from_slice(b": ")?;
    line.extend_from_slice(told.as_bytes())?;
    Text::from_vec(alloc, line)
}

/// The lines of tasks that stay unknown, each with its reason, in their order. An error where memory runs out.
pub fn failure_lines(alloc: Global, failed: &[(Task, RubyError)]) -> Result<TextList, AllocError>
    ensures { IfOk result (λ lines. lines ≡ map spec.failure_line failed.now) }
{
    let mut lines = TextList::new(alloc);
    'failures: for (task, error) in failed {
        lines.push(failure_line(alloc, task, error)?)?;
    }
    Ok(lines)
}
