//! The section.
ghost use Rattle.std.specs.Prelude.{◌≡◌, ◌<◌, ℕ, length, List, Option, Some, None, true, IfOk};
ghost use Rattle.by_need_loader.specs.Progress.{begun};
ghost use Rattle.system_seats.specs.Guards.{define_guard};
ghost use Rattle.system_events.specs.declared.event.Kept.{Kept};
ghost use Rattle.system_events.specs.Steps.{IsNeeded};
ghost use Rattle.system_events.specs.Legal.{IsStep};
ghost use Rattle.load_sections.specs.Theories.{IsOfTheory};
ghost use Rattle.load_sections.specs.Sections.{table_at, IsLoading, IsMade};

use by_need::Theory;
use by_need_loader::{Failure, LoadStep, Loader, Program};
use std::alloc::{AllocError, Global};
use system_core::System;
use system_events::{Act, Applied, Event, Matter};

/// What comes of the next part of a load section.
#[derive(Drop)]
pub enum Made<T, E, O> {
    /// This task was defined.
    Defined(T),
    /// The sought task is in the table.
    Loaded,
    /// It stays unknown.
    Failed(Failure<T, E, O>),
}

/// The load section of a seat.
#[derive(Drop)]
pub struct LoadSection<Y: Program> {
    pub seat: u32,
    pub loader: Loader<Y>,
}

impl<Y: Program> LoadSection<Y> {
    /// The section of a seat that is exclusive for a load of the task.
    pub fn begin(alloc: Global, seat: u32, task: Y::Task) -> LoadSection<Y>
        ensures seat { result.seat ≡ seat }
        ensures loader { result.loader ≡ begun task }
    {
        LoadSection {
            seat,
            loader: Loader::begin(alloc, task),
        }
    }

    /// Defines the next task that a load of the sought one defines, or tells how the load ended. After want of memory
    /// the section is only dropped.
    pub fn define_next<M: Matter<Task = Y::Task, Value = Y::Value>>(
        &mut self,
        system: &mut System<M>,
        theory: &Y,
    ) -> Result<Made<Y::Task, Y::Error, Y::Other>, AllocError>
        requires seat { self.old.seat < length system.old.state.seats.lock.rows }
        requires theory { IsOfTheory M.facts system.old.state.counts.program (Y.rules theory.now) }
        requires loading { (sought : Y.Task) × (at_first : Y.Task → Option Y.Value) × (done : List (Y.Task × Y.Value))
            × IsLoading M.facts (Y.rules theory.now) (Y.runs theory.now) sought at_first system.old.state
            self.old.seat done self.old.loader }
        ensures seat { self.new.seat ≡ self.old.seat }
        ensures made { IfOk result (λ made. (sought : Y.Task) (at_first : Y.Task → Option Y.Value)
            (done : List (Y.Task × Y.Value)) →
            IsLoading M.facts (Y.rules theory.now) (Y.runs theory.now) sought at_first system.old.state
            self.old.seat done self.old.loader →
            IsMade M.facts (Y.rules theory.now) (Y.runs theory.now) sought at_first system.old.state
            system.new.state self.old.seat done self.new.loader made) }
    {
        'looks: loop {
            match self.loader.step(theory)? {
                LoadStep::Look(asked) => self.loader.answer(system.value(&asked))?,
                LoadStep::Define(task, value) => {
                    let defined = Y::copy_task(&task)?;
                    define(system, self.seat, task, value)?;
                    return Ok(Made::Defined(defined));
                }
                LoadStep::Done => return Ok(Made::Loaded),
                LoadStep::Failed(failure) => return Ok(Made::Failed(failure)),
            }
        }
    }
}

// Enters the define of a task that the seat's load needs.
fn define<M: Matter>(
    system: &mut System<M>,
    seat: u32,
    task: M::Task,
    value: M::Value,
) -> Result<(), AllocError>
    requires seat { seat < length system.old.state.seats.lock.rows }
    requires passes { define_guard system.old.state.seats seat ≡ None }
    requires lacks { table_at M.facts system.old.state task ≡ None }
    requires needed { IsNeeded M.facts system.old.state seat task }
    requires known { M.facts.known system.old.state.counts.program task ≡ Some value }
    ensures { IfOk result
        (λ _. IsStep M.facts system.old.state (record { seat = seat; kept = Kept.Define task }) system.new.state) }
{
    system.reserve(1, 1)?;
    let event = Event {
        seat,
        act: Act::Define(task, value),
    };
    match system.apply(event) {
        Applied::Done => Ok(()),
        Applied::Refused(_, _) => unreachable!(),
    }
}
