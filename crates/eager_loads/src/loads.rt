ghost use Rattle.std.specs.Prelude.{◌≡◌, map, IfOk};
ghost use Rattle.by_need.specs.Open.{AllTasks};
ghost use Rattle.by_need.specs.Rounds.{Part, known};
ghost use Rattle.eager_loads.specs.Loads.{AreDefinedFirst};
ghost use Rattle.eager_report.specs.Failures.{failure_line};
ghost use Rattle.load_many.specs.Unknown.{AreDefined, unknown};
ghost use Rattle.load_table.specs.Tables.{value_in};

use by_need_loader::Program;
use eager_report::failure_lines;
use load_many::load_each;
use load_table::Table;
use ruby_runs::NoReply;
use ruby_types::{RubyError, Task, TextList, Value};
use std::alloc::{AllocError, Global};

/// What loads of files and of their tasks come to.
#[derive(Drop)]
pub struct FilesLoaded {
    /// The tasks that the loads of the files defined, in that order.
    pub defined: Vec<Task>,
    /// A line for each task that stays unknown.
    pub lines: TextList,
}

/// Loads tasks, and tells those that stay unknown. An error where memory runs out.
fn lines_of<Y: Program<Task = Task, Value = Value, Error = RubyError, Other = NoReply>>(
    alloc: Global,
    runner: &Y,
    table: &mut Table,
    tasks: &[Task],
) -> Result<TextList, AllocError>
    requires tasks { AllTasks (Y.rules runner.now) tasks.now }
    requires part { Part (value_in table.old) (known (Y.rules runner.now)) }
    ensures { IfOk result (λ lines. lines ≡ map failure_line (unknown (Y.rules runner.now) tasks.now)) }
{
    let loaded = load_each(alloc, runner, table, tasks)?;
    let lines = failure_lines(alloc, loaded.failed.as_slice())?;
    Ok(lines)
}

/// Loads files one after another, whatever each comes to, and then all tasks on the same table. An error where memory
/// runs out.
pub fn load_files<Y: Program<Task = Task, Value = Value, Error = RubyError, Other = NoReply>>(
    alloc: Global,
    runner: &Y,
    files: &[Task],
    tasks: &[Task],
) -> Result<FilesLoaded, AllocError>
    requires files { AllTasks (Y.rules runner.now) files.now }
    requires tasks { AllTasks (Y.rules runner.now) tasks.now }
    ensures defined { IfOk result (λ loaded. AreDefinedFirst (Y.rules runner.now) files.now loaded.defined.items) }
    ensures lines { IfOk result (λ loaded. loaded.lines ≡ map failure_line (unknown (Y.rules runner.now) tasks.now)) }
{
    let mut table = Table::new(alloc);
    let loaded = load_each(alloc, runner, &mut table, files)?;
    let lines = lines_of(alloc, runner, &mut table, tasks)?;
    Ok(FilesLoaded {
        defined: loaded.defined,
        lines,
    })
}
