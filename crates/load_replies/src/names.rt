ghost use Rattle.std.specs.Prelude.{◌≡◌, ◌++◌, map, OnOk};
ghost use Rattle.std.specs.List.{flat_map};
ghost use Rattle.task_keys.specs.Names.{task_name};
ghost use Rattle.program_theory.specs.Replies as spec;
ghost use Rattle.load_replies.specs.Arrows.{arrow};

use plain_text::push_path;
use ruby_types::Task;
use std::alloc::AllocError;

/// Writes the name of a task: a file's path, a constant's, or `ancestors of` a constant's. A request has none.
pub fn push_task_name(written: &mut Vec<u8>, task: &Task) -> Result<(), AllocError>
    ensures { OnOk result (written.new.items ≡ written.old.items ++ task_name task.now) }
{
    match task {
        Task::File(file) => written.extend_from_slice(file.as_bytes()),
        Task::Const(path) => push_path(written, path),
        Task::Ancestors(path) => {
            written.extend_from_slice(b"ancestors of ")?;
            push_path(written, path)?;
            Ok(())
        }
        Task::Request(_) => Ok(()),
    }
}

fn push_arrow(written: &mut Vec<u8>, task: &Task) -> Result<(), AllocError>
    ensures { OnOk result (written.new.items ≡ written.old.items ++ arrow task.now) }
{
    written.extend_from_slice(b" -> ")?;
    push_task_name(written, task)
}

fn push_each_arrow(written: &mut Vec<u8>, tasks: &[Task]) -> Result<(), AllocError>
    ensures { OnOk result (written.new.items ≡ written.old.items ++ flat_map arrow tasks.now) }
{
    'tasks: for task in tasks {
        push_arrow(written, task)?;
    }
    Ok(())
}

/// Writes the names of tasks with arrows between them.
pub(crate) fn push_arrows(written: &mut Vec<u8>, tasks: &[Task]) -> Result<(), AllocError>
    ensures { OnOk result (written.new.items ≡ written.old.items ++ spec.arrows (map task_name tasks.now)) }
{
    match tasks.split_first() {
        None => Ok(()),
        Some((first, others)) => {
            push_task_name(written, first)?;
            push_each_arrow(written, others)?;
            Ok(())
        }
    }
}
