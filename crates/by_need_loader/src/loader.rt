//! A load of a task, step by step. Its caller has the table.
ghost use Rattle.std.specs.Prelude.{◌≡◌, ◌≤◌, ◌<◌, ℕ, IfOk, Some, None, option_copied};
ghost use Rattle.by_need_loader.specs.Steps.{IsReady};
ghost use Rattle.by_need_loader.specs.Progress.{History, IsOn, Finds, WentOn, Tells, WaitsFor, HasRunning, Resumed};
ghost use Rattle.by_need_loader.specs.Progress.{begun, left_in, left_to_do};

use crate::program::{Next, Program};
use crate::ring::ring_from;
use indexmap::IndexSet;
use std::alloc::{AllocError, Global};
use std::marker::Model;
use std::mem;

/// Why a task stays unknown.
#[derive(Drop)]
pub enum Failure<T, E, O> {
    Raised(E),
    /// Tasks that ask for one another, in asking order from the least.
    Circle(Vec<T>),
    /// A run without a value or an error.
    Otherwise(O),
}

/// What the caller has to do next.
#[derive(Drop)]
pub enum LoadStep<T, V, E, O> {
    /// Answer with what the table has for the task.
    Look(T),
    /// Define the task in the table.
    Define(T, V),
    Done,
    Failed(Failure<T, E, O>),
}

/// What comes next in a load.
#[derive(Drop)]
pub enum Phase<T, R> {
    /// A look at the task comes next.
    Asked(T),
    /// The answer to a look is awaited.
    Looks(T),
    /// The table lacks the task.
    Lacks(T),
    /// The task's run goes on.
    Runs(T, R),
    Loaded,
    /// The load failed, or memory was wanted.
    Over,
}

/// Puts another phase in the place of one.
fn set_phase<T: Drop, R: Drop>(phase: &mut Phase<T, R>, next: Phase<T, R>)
    ensures { phase.new ≡ next }
{
    *phase = next;
}

/// The load of a task: the open tasks in asking order, each with its waiting run.
#[derive(Drop)]
pub struct Loader<Y: Program> {
    tasks: Vec<Y::Task>,
    waiting: Vec<Y::Waiting>,
    // By which an open task is found.
    keys: IndexSet<Y::Key>,
    phase: Phase<Y::Task, Y::Running>,
}

impl<Y: Program> Model for Loader<Y> {
    ghost use Rattle.by_need_loader.specs.Progress.{Progress};

    ghost Value = { Progress Y.Task Y.Running Y.Waiting Y.Key };

    ghost view = { λ l. record {
      tasks = l.tasks.items;
      waiting = l.waiting.items;
      keys = l.keys.keys;
      phase = l.phase;
    } };
}

impl<Y: Program> Loader<Y> {
    /// The load of a task over a table. The first step is the look at the task itself.
    pub fn begin(alloc: Global, task: Y::Task) -> Self
        ensures { result ≡ begun task }
    {
        Loader {
            tasks: Vec::new(alloc),
            waiting: Vec::new(alloc),
            keys: IndexSet::new(alloc),
            phase: Phase::Asked(task),
        }
    }

    /// The table's answer to the last step, which was a look.
    pub fn answer(&mut self, found: Option<&Y::Value>) -> Result<(), AllocError>
        ensures { IfOk result (λ _. (s : Y) (h : History Y.Task Y.Value) →
            Finds (Y.rules s) (Y.runs s) h self.old (option_copied found.entry) →
            IsOn (Y.rules s) (Y.runs s) h self.old → WentOn (Y.rules s) (Y.runs s) h self.old self.new) }
    {
        match mem::replace(&mut self.phase, Phase::Over) {
            Phase::Looks(task) => match found {
                None => set_phase(&mut self.phase, Phase::Lacks(task)),
                Some(value) => self.resume(value)?,
            },
            phase => set_phase(&mut self.phase, phase),
        }
        Ok(())
    }

    /// The next step. Before it a look is answered, and a define is done in the table.
    pub fn step(
        &mut self,
        theory: &Y,
    ) -> Result<LoadStep<Y::Task, Y::Value, Y::Error, Y::Other>, AllocError>
        ensures { let r = Y.rules theory.now in let m = Y.runs theory.now in
            IfOk result (λ told. (h : History Y.Task Y.Value) → IsReady self.old.phase → IsOn r m h self.old →
            Tells r m h (left_to_do r m h self.old) self.new told) }
    {
        match mem::replace(&mut self.phase, Phase::Over) {
            Phase::Asked(task) => self.look(task),
            Phase::Looks(task) => self.look(task),
            Phase::Lacks(task) => self.enter(theory, task),
            Phase::Runs(task, running) => self.go_on(theory, task, running),
            Phase::Loaded => {
                set_phase(&mut self.phase, Phase::Loaded);
                Ok(LoadStep::Done)
            }
            Phase::Over => Err(AllocError),
        }
    }

    /// Gives the latest open task the value that its run waits for; the load is done where none is open.
    fn resume(&mut self, value: &Y::Value) -> Result<(), AllocError>
        ensures { IfOk result (λ _. (s : Y) (h : History Y.Task Y.Value) (u : Y.Task) →
            h.table u ≡ Some value.now → WaitsFor (Y.rules s) (Y.runs s) h self.old u →
            Resumed (Y.rules s) (Y.runs s) h self.old self.new u) }
    {
        match self.tasks.pop() {
            None => set_phase(&mut self.phase, Phase::Loaded),
            Some(task) => {
                if let Some(waiting) = self.waiting.pop() {
                    let running = Y::supply(waiting, value)?;
                    set_phase(&mut self.phase, Phase::Runs(task, running));
                }
            }
        }
        Ok(())
    }

    /// Asks for the table's value of a task.
    fn look(
        &mut self,
        task: Y::Task,
    ) -> Result<LoadStep<Y::Task, Y::Value, Y::Error, Y::Other>, AllocError>
        ensures { IfOk result (λ told. (s : Y) (h : History Y.Task Y.Value) (bound : ℕ) →
            WaitsFor (Y.rules s) (Y.runs s) h self.old task →
            left_in (Y.rules s) (Y.runs s) h self.old (Phase.Looks task) < bound →
            Tells (Y.rules s) (Y.runs s) h bound self.new told) }
    {
        let told = Y::copy_task(&task)?;
        set_phase(&mut self.phase, Phase::Looks(task));
        Ok(LoadStep::Look(told))
    }

    /// Begins the run of a task that the table lacks, or names the ring that it closes.
    fn enter(
        &mut self,
        theory: &Y,
        task: Y::Task,
    ) -> Result<LoadStep<Y::Task, Y::Value, Y::Error, Y::Other>, AllocError>
        ensures { let r = Y.rules theory.now in let m = Y.runs theory.now in
            IfOk result (λ told. (h : History Y.Task Y.Value) (bound : ℕ) → WaitsFor r m h self.old task →
            h.table task ≡ None → left_in r m h self.old (Phase.Lacks task) ≤ bound →
            Tells r m h bound self.new told) }
    {
        let key = theory.key_of(&task)?;
        match self.keys.insert_full(key) {
            Err(_) => Err(AllocError),
            Ok((_, true)) => {
                let running = theory.begin(&task)?;
                self.go_on(theory, task, running)
            }
            Ok((place, false)) => {
                let none = Vec::new(*self.tasks.allocator());
                let tasks = mem::replace(&mut self.tasks, none);
                Ok(LoadStep::Failed(Failure::Circle(ring_from(theory, tasks, place))))
            }
        }
    }

    /// Tells what the run of a task comes to.
    fn go_on(
        &mut self,
        theory: &Y,
        task: Y::Task,
        running: Y::Running,
    ) -> Result<LoadStep<Y::Task, Y::Value, Y::Error, Y::Other>, AllocError>
        ensures { let r = Y.rules theory.now in let m = Y.runs theory.now in
            IfOk result (λ told. (h : History Y.Task Y.Value) (bound : ℕ) → HasRunning r m h self.old task running →
            left_in r m h self.old (Phase.Runs task running) ≤ bound → Tells r m h bound self.new told) }
    {
        match theory.run(running)? {
            Next::Done(value) => {
                self.keys.truncate(self.tasks.len());
                if self.tasks.is_empty() {
                    set_phase(&mut self.phase, Phase::Loaded);
                    return Ok(LoadStep::Define(task, value));
                }
                let asked = Y::copy_task(&task)?;
                set_phase(&mut self.phase, Phase::Asked(asked));
                Ok(LoadStep::Define(task, value))
            }
            Next::Raised(error) => Ok(LoadStep::Failed(Failure::Raised(error))),
            Next::Otherwise(end) => Ok(LoadStep::Failed(Failure::Otherwise(end))),
            Next::Asks(asked, waiting) => {
                self.tasks.push(task)?;
                self.waiting.push(waiting)?;
                self.look(asked)
            }
        }
    }
}
