ghost use Rattle.std.specs.Prelude.{◌≡◌, IfOk, IfSome, List, OnOk};
ghost use Rattle.program_places.specs.Places.{Index};
ghost use Rattle.ruby_nodes.specs.Entries.{Entry};
ghost use Rattle.ruby_runs.specs.Runs.{meaning, run_limits};
ghost use Rattle.ruby_machine_names.specs.Profile.{profile};
ghost use Rattle.ruby_types.specs.declared.request.Task.TheVariants as task;
ghost use Rattle.ruby_machine.specs.Machines.{GoesTo, RanTo, Reaches, branch, still};

use crate::goes::{begin, resume};
use crate::stage::{Next, Stage, Wait};
use lists::Copying;
use program_lookups::Lookups;
use ruby_runs::NoReply;
use ruby_types::{Request, RubyError, Task, Value, copy_request, copy_task};
use std::alloc::{AllocError, Global};
use std::mem;

/// What a run came to.
#[derive(Drop)]
pub enum Ran {
    Done(Value),
    Raised(RubyError),
    /// The value of this task is needed.
    Need(Task),
    NoController,
    NoAction,
    /// Memory is lacking, or the machine was not ready to run.
    Memory,
}

/// The same, with the path of the controller where a request has no reply of its own.
#[derive(Drop)]
pub enum Reached {
    Done(Value),
    Raised(RubyError),
    Need(Task),
    Without(NoReply),
    Memory,
}

/// The run of a task or a request, which stops where it needs the value of another task.
#[derive(Drop)]
pub struct Machine {
    pub alloc: Global,
    /// Where it stands.
    pub stage: Stage,
}

/// What a machine comes to next from where it stands. One that waits, or that came to an end, isn't ready to run.
fn next_of<P: Lookups>(alloc: Global, program: &P, stage: Stage) -> Next
    ensures { let i = P.index program.now in
        let k = P.entries program.now in
        Reaches i k (still i k stage) result }
{
    match stage {
        Stage::Begins(task) => begin(alloc, program, &task),
        Stage::Resumes(wait, value) => resume(alloc, program, wait, value),
        Stage::Waits(_wait) => Next::Memory,
        Stage::Over => Next::Memory,
    }
}

/// A machine that waits, with the value that it waits for.
fn supplied(stage: Stage, value: Value) -> Option<Stage>
    ensures { (index : Index) (known : List Entry) → IfSome result
        (λ resumed. still index known resumed ≡ branch index known stage value) }
{
    match stage {
        Stage::Waits(wait) => Some(Stage::Resumes(wait, value)),
        _ => None,
    }
}

impl Machine {
    /// A machine for a file's, a constant's or an ancestors' task.
    pub fn file_task<P: Lookups>(
        alloc: Global,
        program: &P,
        task: &Task,
    ) -> Result<Machine, AllocError>
        ensures { (index : Index) (known : List Entry) → IfOk result (λ machine.
            still index known machine.stage ≡ meaning index profile run_limits task.now) }
    {
        let stage = Stage::Begins(copy_task(task)?);
        Ok(Machine { alloc, stage })
    }

    /// A machine for a request.
    pub fn request<P: Lookups>(
        alloc: Global,
        program: &P,
        request: &Request,
    ) -> Result<Machine, AllocError>
        ensures { (index : Index) (known : List Entry) → IfOk result (λ machine.
            still index known machine.stage ≡ meaning index profile run_limits (task.Request request.now)) }
    {
        let stage = Stage::Begins(Task::Request(copy_request(request)?));
        Ok(Machine { alloc, stage })
    }

    /// Takes where the machine stands out of it.
    fn take_stage(&mut self) -> Stage
        ensures { result ≡ self.old.stage }
    {
        mem::replace(&mut self.stage, Stage::Over)
    }

    /// Puts the machine where it stands.
    fn put_stage(&mut self, stage: Stage)
        ensures { self.new.stage ≡ stage }
    {
        self.stage = stage;
    }

    /// Goes on to the end or the next question.
    pub fn reach<P: Lookups>(&mut self, program: &P) -> Reached
        ensures { let i = P.index program.now in
            let k = P.entries program.now in
            GoesTo i k (still i k self.old.stage) result self.new.stage }
    {
        let stage = self.take_stage();
        match next_of(self.alloc, program, stage) {
            Next::Done(value) => Reached::Done(value),
            Next::Raised(error) => Reached::Raised(error),
            Next::Without(end) => Reached::Without(end),
            Next::Memory => Reached::Memory,
            Next::Asks(task, wait) => {
                self.put_stage(Stage::Waits(wait));
                Reached::Need(task)
            }
        }
    }

    /// Goes on to the end, or to a task whose value is needed.
    pub fn run<P: Lookups>(&mut self, program: &P) -> Ran
        ensures { let i = P.index program.now in
            let k = P.entries program.now in
            RanTo i k (still i k self.old.stage) result self.new.stage }
    {
        match self.reach(program) {
            Reached::Done(value) => Ran::Done(value),
            Reached::Raised(error) => Ran::Raised(error),
            Reached::Need(task) => Ran::Need(task),
            Reached::Without(NoReply::NoController(_)) => Ran::NoController,
            Reached::Without(NoReply::NoAction(_)) => Ran::NoAction,
            Reached::Memory => Ran::Memory,
        }
    }

    /// Gives the value that is waited for. What doesn't wait takes none.
    pub fn supply(&mut self, value: &Value) -> Result<(), AllocError>
        ensures { (index : Index) (known : List Entry) → OnOk result
            (still index known self.new.stage ≡ branch index known self.old.stage value.now) }
    {
        let value = value.copy()?;
        let stage = self.take_stage();
        match supplied(stage, value) {
            None => Err(AllocError),
            Some(stage) => {
                self.put_stage(stage);
                Ok(())
            }
        }
    }
}
