//! The answer of a run over a table that grows.
ghost use Rattle.std.specs.Prelude.{◌≡◌, true, None, Some, IfOk, IsNone, IfSome, Option};
ghost use Rattle.by_need.specs.Asking.{over};
ghost use Rattle.by_need.specs.Blame.{blame};
ghost use Rattle.by_need.specs.Load.{Gains};
ghost use Rattle.by_need.specs.Rounds.{Part, is_task, known};
ghost use Rattle.by_need_loader.specs.Failures.{cause};
ghost use Rattle.by_need_loader.specs.Gained.{GainsFor};
ghost use Rattle.by_need_answer.specs.Answers.{Answers, AsksForTasks};

use by_need_loader::{Failure, Loaded, Next, Program, Table, load};
use std::alloc::{AllocError, Global};

/// What a run comes to.
#[derive(Drop)]
pub enum Answered<T, V, E, O> {
    Done(V),
    Raised(E),
    /// An end without a value or an error.
    Otherwise(O),
    /// The run waits for a task that stays unknown.
    Blamed(Failure<T, E, O>),
}

/// Loads a task that the table lacks; tells why it stays unknown, where it does.
fn provide<Y: Program, B: Table<Y::Task, Y::Value>>(
    alloc: Global,
    theory: &Y,
    table: &mut B,
    task: Y::Task,
) -> Result<Option<Failure<Y::Task, Y::Error, Y::Other>>, AllocError>
    requires task { is_task (Y.rules theory.now) task ≡ true }
    requires part { Part (B.at table.old) (known (Y.rules theory.now)) }
    ensures there { IfOk result (λ failure. IsNone failure → (v : Y.Value) × (B.at table.new task ≡ Some v)
        × (known (Y.rules theory.now) task ≡ Some v)) }
    ensures blamed { IfOk result (λ failed. IfSome failed (λ failure. (known (Y.rules theory.now) task ≡ None)
        × (blame (Y.rules theory.now) task ≡ cause failure))) }
    ensures part { Part (B.at table.new) (known (Y.rules theory.now)) }
    ensures gains { Gains (Y.rules theory.now) task (B.at table.old) (B.at table.new) }
{
    if table.defined(&task).is_some() {
        return Ok(None);
    }
    match load(alloc, theory, table, task)? {
        Loaded::Done => Ok(None),
        Loaded::Failed(failure) => Ok(Some(failure)),
    }
}

/// Answers a run that asks for tasks of its program, each of which is loaded where the table lacks it. The table gains
/// only what these tasks need.
pub fn answer_run<Y: Program, B: Table<Y::Task, Y::Value>>(
    alloc: Global,
    theory: &Y,
    table: &mut B,
    running: Y::Running,
) -> Result<Answered<Y::Task, Y::Value, Y::Error, Y::Other>, AllocError>
    requires tasks { AsksForTasks (Y.rules theory.now) ((Y.runs theory.now).rest running) }
    requires part { Part (B.at table.old) (known (Y.rules theory.now)) }
    ensures answers { IfOk result (Answers (Y.rules theory.now) ((Y.runs theory.now).rest running)) }
    ensures part { Part (B.at table.new) (known (Y.rules theory.now)) }
    ensures gains { GainsFor (Y.rules theory.now)
        (over (known (Y.rules theory.now)) ((Y.runs theory.now).rest running)).asked (B.at table.old) (B.at table.new) }
{
    let mut going = running;
    'questions: loop {
        match theory.run(going)? {
            Next::Done(value) => return Ok(Answered::Done(value)),
            Next::Raised(error) => return Ok(Answered::Raised(error)),
            Next::Otherwise(end) => return Ok(Answered::Otherwise(end)),
            Next::Asks(asked, waiting) => {
                let wanted = Y::copy_task(&asked)?;
                if let Some(failure) = provide(alloc, theory, table, wanted)? {
                    return Ok(Answered::Blamed(failure));
                }
                match table.defined(&asked) {
                    None => unreachable!(),
                    Some(value) => going = Y::supply(waiting, value)?,
                }
            }
        }
    }
}
