ghost use Rattle.std.specs.Prelude.{◌≡◌, IfOk, List, refl};
ghost use Rattle.by_need_loader.specs.Runs.{Reaches};
ghost use Rattle.ruby_types.specs.declared.request.Task.TheVariants as task;
ghost use Rattle.program_places.specs.Places.{Index};
ghost use Rattle.ruby_nodes.specs.Entries.{Entry};
ghost use Rattle.ruby_runs.specs.Doing.{Meaning};
ghost use Rattle.ruby_machine.specs.Machines.{GoesTo};
ghost use Rattle.program_theory.specs.Applications.{meaning_in};
ghost use Rattle.program_theory.proofs.Lawful.{rules_lawful};
ghost use Rattle.program_application.specs.Applications.{application_of};
ghost use Rattle.ruby_runner.specs.Keys.{keys_tell_apart};
ghost use Rattle.ruby_runner.specs.Runs.{branch_of, rules_in, runs_of};

use by_need::Theory;
use by_need_loader::Next;
use program_index::Program;
use ruby_machine::{Machine, Reached};
use ruby_runs::NoReply;
use ruby_types::{Request, RubyError, Task, Value};
use std::alloc::{AllocError, Global};
use std::marker::Model;
use task_keys::TaskKey;

/// One generation of an application, with the memory that its runs take. Contracts see it as the program's content.
#[derive(Drop)]
pub struct RubyRunner {
    alloc: Global,
    program: Program,
}

impl Model for RubyRunner {
    ghost use Rattle.std.specs.Coded.{codes};
    ghost use Rattle.program_index.specs.Content.{Content};
    ghost use Rattle.program_used.specs.contracts.used.UsedText as used;
    ghost use Rattle.ruby_types.specs.contracts.tree.Expr as expr;
    ghost use Rattle.ruby_types.specs.contracts.tree.Part as part;
    ghost use Rattle.ruby_types.specs.contracts.tree.Stmt as stmt;

    ghost Value = { Content };

    ghost coded = { Prim.hlevel
        (codes, used.the_row.coded, expr.the_row.coded, part.the_row.coded, stmt.the_row.coded) };

    ghost view = { λ runner. runner.program };
}

impl Theory for RubyRunner {
    type Task = Task;

    type Value = Value;

    type Error = RubyError;

    type Other = NoReply;

    ghost rules = { rules_in };

    ghost laws = { λ p. rules_lawful (application_of p) };
}

/// What a loader is told of what a machine came to. An error where memory runs out.
fn next_of(
    machine: Machine,
    reached: Reached,
) -> Result<Next<Task, Value, RubyError, NoReply, Machine>, AllocError>
    ensures { (index : Index) (known : List Entry) (before : Meaning) →
        GoesTo index known before reached machine.stage → IfOk result (Reaches (branch_of index known) before) }
{
    match reached {
        Reached::Done(value) => Ok(Next::Done(value)),
        Reached::Raised(error) => Ok(Next::Raised(error)),
        Reached::Need(task) => Ok(Next::Asks(task, machine)),
        Reached::Without(end) => Ok(Next::Otherwise(end)),
        Reached::Memory => Err(AllocError),
    }
}

impl by_need_loader::Program for RubyRunner {
    type Running = Machine;

    type Waiting = Machine;

    type Key = TaskKey;

    ghost runs = { runs_of };

    fn at_most(&self, a: &Task, b: &Task) -> bool {
        task_keys::at_most(a, b)
    }

    fn copy_task(task: &Task) -> Result<Task, AllocError> {
        ruby_types::copy_task(task)
    }

    fn key_of(&self, task: &Task) -> Result<TaskKey, AllocError> {
        Ok(TaskKey {
            task: ruby_types::copy_task(task)?,
        })
    }

    fn begin(&self, task: &Task) -> Result<Machine, AllocError> {
        Machine::file_task(self.alloc, &self.program, task)
    }

    fn run(
        &self,
        running: Machine,
    ) -> Result<Next<Task, Value, RubyError, NoReply, Machine>, AllocError> {
        let mut machine = running;
        let reached = machine.reach(&self.program);
        next_of(machine, reached)
    }

    fn supply(waiting: Machine, value: &Value) -> Result<Machine, AllocError> {
        let mut machine = waiting;
        machine.supply(value)?;
        Ok(machine)
    }

    ghost follows = { λ p t K. refl };

    ghost tells_apart = { λ p. keys_tell_apart (application_of p) };
}

impl RubyRunner {
    /// What runs the tasks of a program.
    pub fn new(alloc: Global, program: Program) -> RubyRunner
        ensures { result ≡ program }
    {
        RubyRunner { alloc, program }
    }

    /// The program.
    pub fn program(&self) -> &Program
        ensures { result.now ≡ self.now }
    {
        &self.program
    }

    /// The memory that its runs take.
    pub fn alloc(&self) -> Global {
        self.alloc
    }

    /// A request's run, which is no task.
    pub fn begin_request(&self, request: &Request) -> Result<Machine, AllocError>
        ensures { IfOk result (λ machine. (runs_of self.now).rest machine ≡
            meaning_in (application_of self.now) (task.Request request.now)) }
    {
        Machine::request(self.alloc, &self.program, request)
    }
}
