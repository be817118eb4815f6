ghost use Rattle.std.specs.Prelude.{◌≡◌, IfOk, map};
ghost use Rattle.by_need.specs.Open.{AllTasks};
ghost use Rattle.by_need.specs.Rounds.{Part, known};
ghost use Rattle.by_need_check.specs.Checks.{causes};
ghost use Rattle.by_need_loader.specs.Failures.{cause};
ghost use Rattle.by_need_loader.specs.Gained.{GainsFor};
ghost use Rattle.load_table.specs.Tables.{value_in};
ghost use Rattle.load_many.specs.Unknown.{AreDefined, unknown, with_error};

use by_need_check::{Checked, check_tasks};
use by_need_loader::{Failure, Program};
use load_replies::blame_error;
use load_table::Table;
use ruby_runs::NoReply;
use ruby_types::{RubyError, Task, Value};
use std::alloc::{AllocError, Global};

/// What loads of many tasks came to.
#[derive(Drop)]
pub struct ManyLoaded {
    /// The tasks that were defined, in that order.
    pub defined: Vec<Task>,
    /// Those that stay unknown, in the order in which they were loaded, each with its error.
    pub failed: Vec<(Task, RubyError)>,
}

/// A task that failed, with its error.
fn told(
    alloc: Global,
    failed: (Task, Failure<Task, RubyError, NoReply>),
) -> Result<(Task, RubyError), AllocError>
    ensures { IfOk result (λ told. told ≡ with_error (failed.0, cause failed.1)) }
{
    let (task, failure) = failed;
    Ok((task, blame_error(alloc, failure)?))
}

/// Tasks that failed, each with its error.
fn all_told(
    alloc: Global,
    failed: Vec<(Task, Failure<Task, RubyError, NoReply>)>,
) -> Result<Vec<(Task, RubyError)>, AllocError>
    ensures { IfOk result (λ errors. errors.items ≡ map with_error (causes failed.items)) }
{
    let mut errors = Vec::new(alloc);
    'failures: for failure in failed {
        errors.push(told(alloc, failure)?)?;
    }
    Ok(errors)
}

/// Loads tasks one after another, whatever each comes to. The table gains only what they need. An error where memory
/// runs out; what was defined on the way stays in the table.
pub fn load_each<Y: Program<Task = Task, Value = Value, Error = RubyError, Other = NoReply>>(
    alloc: Global,
    program: &Y,
    table: &mut Table,
    tasks: &[Task],
) -> Result<ManyLoaded, AllocError>
    requires tasks { AllTasks (Y.rules program.now) tasks.now }
    requires part { Part (value_in table.old) (known (Y.rules program.now)) }
    ensures failed { IfOk result (λ loaded. loaded.failed.items ≡ unknown (Y.rules program.now) tasks.now) }
    ensures defined { IfOk result (λ loaded. AreDefined (Y.rules program.now) (value_in table.old) tasks.now
        (value_in table.new) loaded.defined.items) }
    ensures part { Part (value_in table.new) (known (Y.rules program.now)) }
    ensures gains { GainsFor (Y.rules program.now) tasks.now (value_in table.old) (value_in table.new) }
{
    let Checked { defined, failed } = check_tasks(alloc, program, table, tasks)?;
    Ok(ManyLoaded {
        defined,
        failed: all_told(alloc, failed)?,
    })
}
