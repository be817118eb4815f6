//! A whole load over a table.
ghost use Rattle.std.specs.Prelude.{◌≡◌, ◌++◌, true, IfOk, List};
ghost use Rattle.by_need.specs.Load.{Gains};
ghost use Rattle.by_need.specs.Order.{Load};
ghost use Rattle.by_need.specs.Rounds.{Part, is_task, known};
ghost use Rattle.by_need_loader.specs.Ends.{Ends, is_done, defined_tasks};

use crate::loader::{Failure, LoadStep, Loader};
use crate::program::Program;
use crate::table::Table;
use std::alloc::{AllocError, Global};

/// How a load ends.
#[derive(Drop)]
pub enum Loaded<T, E, O> {
    Done,
    Failed(Failure<T, E, O>),
}

/// Loads a task, and first what it asks for. What was defined on the way stays, whatever the end, and is noted.
pub fn load_noting<Y: Program, B: Table<Y::Task, Y::Value>>(
    alloc: Global,
    theory: &Y,
    table: &mut B,
    task: Y::Task,
    noted: &mut Vec<Y::Task>,
) -> Result<Loaded<Y::Task, Y::Error, Y::Other>, AllocError>
    requires task { is_task (Y.rules theory.now) task ≡ true }
    requires part { Part (B.at table.old) (known (Y.rules theory.now)) }
    ensures ends { IfOk result (Ends (Y.rules theory.now) task (B.at table.new)) }
    ensures part { Part (B.at table.new) (known (Y.rules theory.now)) }
    ensures gains { Gains (Y.rules theory.now) task (B.at table.old) (B.at table.new) }
    ensures order { IfOk result (λ loaded. (made : List (Y.Task × Y.Value))
        × Load (Y.rules theory.now) (B.at table.old) task made (B.at table.new) (is_done loaded)
        × (noted.new.items ≡ noted.old.items ++ defined_tasks made)) }
{
    let mut loader: Loader<Y> = Loader::begin(alloc, task);
    'steps: loop {
        match loader.step(theory)? {
            LoadStep::Look(asked) => loader.answer(table.defined(&asked))?,
            LoadStep::Define(done, value) => {
                noted.push(Y::copy_task(&done)?)?;
                table.define(done, value)?;
            }
            LoadStep::Done => return Ok(Loaded::Done),
            LoadStep::Failed(failure) => return Ok(Loaded::Failed(failure)),
        }
    }
}

/// Loads a task, and first what it asks for. What was defined on the way stays, whatever the end.
pub fn load<Y: Program, B: Table<Y::Task, Y::Value>>(
    alloc: Global,
    theory: &Y,
    table: &mut B,
    task: Y::Task,
) -> Result<Loaded<Y::Task, Y::Error, Y::Other>, AllocError>
    requires task { is_task (Y.rules theory.now) task ≡ true }
    requires part { Part (B.at table.old) (known (Y.rules theory.now)) }
    ensures ends { IfOk result (Ends (Y.rules theory.now) task (B.at table.new)) }
    ensures part { Part (B.at table.new) (known (Y.rules theory.now)) }
    ensures gains { Gains (Y.rules theory.now) task (B.at table.old) (B.at table.new) }
    ensures order { IfOk result (λ loaded. (made : List (Y.Task × Y.Value))
        × Load (Y.rules theory.now) (B.at table.old) task made (B.at table.new) (is_done loaded)) }
{
    let mut noted = Vec::new(alloc);
    load_noting(alloc, theory, table, task, &mut noted)
}
