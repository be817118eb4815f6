ghost use Rattle.std.specs.Prelude.{◌≡◌, true, IfOk};
ghost use Rattle.by_need.specs.Load.{Gains};
ghost use Rattle.by_need.specs.Rounds.{Part, is_task, known};
ghost use Rattle.load_table.specs.Tables.{value_in};
ghost use Rattle.load_core.specs.Ends.{EndsAs, IsOrder};

use by_need_loader::Program;
use load_replies::blame_error;
use load_table::Table;
use ruby_runs::NoReply;
use ruby_types::{RubyError, Task, Value};
use std::alloc::{AllocError, Global};

/// How a load ends.
#[derive(Drop)]
pub enum Loaded {
    /// The task is known, and in the table.
    Done,
    /// The task stays unknown, for this reason.
    Failed(RubyError),
    Memory,
}

fn load_task<Y: Program<Task = Task, Value = Value, Error = RubyError, Other = NoReply>>(
    alloc: Global,
    program: &Y,
    table: &mut Table,
    task: &Task,
) -> Result<Loaded, AllocError>
    requires task { is_task (Y.rules program.now) task.now ≡ true }
    requires part { Part (value_in table.old) (known (Y.rules program.now)) }
    ensures ends { IfOk result (EndsAs (Y.rules program.now) task.now (value_in table.new)) }
    ensures part { Part (value_in table.new) (known (Y.rules program.now)) }
    ensures gains { Gains (Y.rules program.now) task.now (value_in table.old) (value_in table.new) }
    ensures order { IfOk result (IsOrder (Y.rules program.now) task.now (value_in table.old) (value_in table.new)) }
{
    let wanted = Y::copy_task(task)?;
    match by_need_loader::load(alloc, program, table, wanted)? {
        by_need_loader::Loaded::Done => Ok(Loaded::Done),
        by_need_loader::Loaded::Failed(failure) => {
            Ok(Loaded::Failed(blame_error(alloc, failure)?))
        }
    }
}

/// Loads a task, and first what it asks for. What was defined on the way stays, whatever the end.
pub fn load<Y: Program<Task = Task, Value = Value, Error = RubyError, Other = NoReply>>(
    alloc: Global,
    program: &Y,
    table: &mut Table,
    task: &Task,
) -> Loaded
    requires task { is_task (Y.rules program.now) task.now ≡ true }
    requires part { Part (value_in table.old) (known (Y.rules program.now)) }
    ensures ends { EndsAs (Y.rules program.now) task.now (value_in table.new) result }
    ensures part { Part (value_in table.new) (known (Y.rules program.now)) }
    ensures gains { Gains (Y.rules program.now) task.now (value_in table.old) (value_in table.new) }
    ensures order { IsOrder (Y.rules program.now) task.now (value_in table.old) (value_in table.new) result }
{
    match load_task(alloc, program, table, task) {
        Ok(loaded) => loaded,
        Err(_) => Loaded::Memory,
    }
}
