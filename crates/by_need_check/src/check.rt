//! Loads of many tasks.
ghost use Rattle.std.specs.Prelude.{◌≡◌, IfOk, List};
ghost use Rattle.by_need.specs.Open.{AllTasks};
ghost use Rattle.by_need.specs.Rounds.{Part, known};
ghost use Rattle.by_need_check.specs.Checks.{LoadEach, blamed, causes};
ghost use Rattle.by_need_loader.specs.Ends.{defined_tasks};
ghost use Rattle.by_need_loader.specs.Gained.{GainsFor};

use by_need_loader::{Failure, Loaded, Program, Table, load_noting};
use std::alloc::{AllocError, Global};

/// What loads of many tasks came to.
#[derive(Drop)]
pub struct Checked<T, E, O> {
    /// The tasks that were defined, in that order.
    pub defined: Vec<T>,
    /// Those that stay unknown, each with why.
    pub failed: Vec<(T, Failure<T, E, O>)>,
}

/// Loads tasks one after another, whatever each comes to. The table gains only what they need.
pub fn check_tasks<Y: Program, B: Table<Y::Task, Y::Value>>(
    alloc: Global,
    theory: &Y,
    table: &mut B,
    tasks: &[Y::Task],
) -> Result<Checked<Y::Task, Y::Error, Y::Other>, AllocError>
    requires tasks { AllTasks (Y.rules theory.now) tasks.now }
    requires part { Part (B.at table.old) (known (Y.rules theory.now)) }
    ensures failed { IfOk result (λ checked. causes checked.failed.items ≡ blamed (Y.rules theory.now) tasks.now) }
    ensures defined { IfOk result (λ checked. (made : List (Y.Task × Y.Value))
        × LoadEach (Y.rules theory.now) (B.at table.old) tasks.now made (B.at table.new)
        × (checked.defined.items ≡ defined_tasks made)) }
    ensures part { Part (B.at table.new) (known (Y.rules theory.now)) }
    ensures gains { GainsFor (Y.rules theory.now) tasks.now (B.at table.old) (B.at table.new) }
{
    let mut defined = Vec::new(alloc);
    let mut failed = Vec::new(alloc);
    let mut left = tasks;
    'tasks: while let Some((task, behind)) = left.split_first() {
        let wanted = Y::copy_task(task)?;
        match load_noting(alloc, theory, table, wanted, &mut defined)? {
            Loaded::Done => {}
            Loaded::Failed(failure) => failed.push((Y::copy_task(task)?, failure))?,
        }
        left = behind;
    }
    Ok(Checked { defined, failed })
}
