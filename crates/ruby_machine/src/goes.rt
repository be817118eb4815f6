ghost use Rattle.std.specs.Prelude.{◌≡◌, ℕ, IfOk, List};
ghost use Rattle.program_places.specs.Places.{Index};
ghost use Rattle.ruby_nodes.specs.Entries.{Entry};
ghost use Rattle.ruby_runs.specs.Doing.{Meaning};
ghost use Rattle.ruby_runs.specs.Runs as runs;
ghost use Rattle.ruby_runs.specs.Runs.{run_limits};
ghost use Rattle.ruby_machine_names.specs.Profile.{profile};
ghost use Rattle.ruby_machine_files.specs.Files.{TaskGoes, finish};
ghost use Rattle.ruby_machine_files.specs.Files as files;
ghost use Rattle.ruby_machine_ancestors.specs.Ancestors as ancestors;
ghost use Rattle.ruby_machine_requests.specs.Requests.{RequestGoes};
ghost use Rattle.ruby_machine_frames.specs.Rest.{KeptFrom};
ghost use Rattle.ruby_machine.specs.Machines.{IsAssigned, Reaches, StopsAs, waits};

use crate::stage::{Next, Wait};
use lists::Copying;
use program_lookups::{Lookups, Scopes, Standing};
use ruby_machine_ancestors::AncestorsWait;
use ruby_machine_files::{FileWait, TASK_TURNS, TaskStep, file_here};
use ruby_machine_frames::{Control, Core, Stop};
use ruby_machine_names::{Failure, copy_error};
use ruby_machine_requests::{RequestStep, begun};
use ruby_machine_steps::run as run_code;
use ruby_types::{CPath, Task, Text, Value};
use std::alloc::{AllocError, Global};

/// What code comes to next that stopped.
fn stopped(core: Core, stop: Stop) -> Next
    ensures { (index : Index) (known : List Entry) (before : Meaning) → StopsAs index known before stop core →
        Reaches index known before result }
{
    match stop {
        Stop::Done(value) => Next::Done(value),
        Stop::Raised(error) => Next::Raised(error),
        Stop::Need(task) => Next::Asks(task, Wait::Code(core)),
        Stop::Memory => Next::Memory,
    }
}

/// Goes on with code, after a step of it.
fn run_on<P: Lookups>(
    alloc: Global,
    program: &P,
    mut core: Core,
    next: Result<Control, Stop>,
) -> Next
    ensures { let i = P.index program.now in
        let k = P.entries program.now in
        (before : Meaning) (bound : ℕ) → KeptFrom i k before bound next core → Reaches i k before result }
{
    match next {
        Ok(now) => {
            let stop = run_code(&mut core, alloc, program, now);
            stopped(core, stop)
        }
        Err(stop) => stopped(core, stop),
    }
}

/// What a file's task comes to next.
fn of_file(step: Result<TaskStep<FileWait>, Failure>) -> Next
    ensures { (index : Index) (known : List Entry) (before : Meaning) → TaskGoes (files.waits index) before step →
        Reaches index known before result }
{
    match step {
        Ok(TaskStep::Done(value)) => Next::Done(value),
        Ok(TaskStep::Asks(task, wait)) => Next::Asks(task, Wait::File(wait)),
        Err(Failure::Raised(error)) => Next::Raised(error),
        Err(Failure::Memory) => Next::Memory,
    }
}

/// What an ancestors' task comes to next.
fn of_ancestors(step: Result<TaskStep<AncestorsWait>, Failure>) -> Next
    ensures { (index : Index) (known : List Entry) (before : Meaning) →
        TaskGoes (ancestors.waits index) before step → Reaches index known before result }
{
    match step {
        Ok(TaskStep::Done(value)) => Next::Done(value),
        Ok(TaskStep::Asks(task, wait)) => Next::Asks(task, Wait::Ancestors(wait)),
        Err(Failure::Raised(error)) => Next::Raised(error),
        Err(Failure::Memory) => Next::Memory,
    }
}

/// What a request comes to next.
fn of_request<P: Lookups>(alloc: Global, program: &P, step: Result<RequestStep, Failure>) -> Next
    ensures { let i = P.index program.now in
        let k = P.entries program.now in
        (before : Meaning) → RequestGoes i k before step → Reaches i k before result }
{
    match step {
        Ok(RequestStep::Without(end)) => Next::Without(end),
        Ok(RequestStep::Asks(task, wait)) => Next::Asks(task, Wait::Request(wait)),
        Ok(RequestStep::Calls(core, next)) => run_on(alloc, program, core, next),
        Err(Failure::Raised(error)) => Next::Raised(error),
        Err(Failure::Memory) => Next::Memory,
    }
}

/// The module around an assignment, which is its self; nil at a file's top.
fn self_around(scopes: &Scopes) -> Result<Value, AllocError>
    ensures { IfOk result (λ value. value ≡ runs.self_around scopes.now) }
{
    if scopes.is_empty() {
        return Ok(Value::Nil);
    }
    Ok(Value::Module(scopes.at(0).copy()?))
}

/// A machine at the beginning of an assigned constant's expression.
fn begin_assigned(alloc: Global, file: &Text, scopes: &Scopes) -> Result<Core, AllocError>
    ensures { IfOk result (λ core. IsAssigned file.now scopes.now core) }
{
    let here = file_here(file, scopes.copy()?)?;
    Ok(begun(alloc, here, self_around(scopes)?, TASK_TURNS))
}

/// The run of a constant's task: a class or module is itself, an assigned constant its expression's value.
fn run_const<P: Lookups>(alloc: Global, program: &P, path: &CPath) -> Result<Next, AllocError>
    ensures { let i = P.index program.now in
        IfOk result (Reaches i (P.entries program.now)
        (runs.const_run i profile run_limits path.now (i.place path.now) run_limits.task_turns finish)) }
{
    match program.place(path) {
        Standing::Missing | Standing::Implicit => Ok(Next::Done(Value::Nil)),
        Standing::Faulty(_, error) => Ok(Next::Raised(copy_error(error)?)),
        Standing::Opened(_, _) => Ok(Next::Done(Value::Module(path.copy()?))),
        Standing::Assigned(file, first, scopes) => {
            let core = begin_assigned(alloc, file, scopes)?;
            Ok(run_on(alloc, program, core, Ok(Control::Eval(first))))
        }
    }
}

/// Begins the run of a task or a request, and goes on to its end or its first question.
pub fn begin<P: Lookups>(alloc: Global, program: &P, task: &Task) -> Next
    ensures { let i = P.index program.now in
        Reaches i (P.entries program.now) (runs.meaning i profile run_limits task.now) result }
{
    match task {
        Task::File(file) => of_file(ruby_machine_files::begin(alloc, program, file)),
        Task::Const(path) => run_const(alloc, program, path).unwrap_or(Next::Memory),
        Task::Ancestors(path) => of_ancestors(ruby_machine_ancestors::begin(alloc, program, path)),
        Task::Request(request) => {
            let step = ruby_machine_requests::begin(alloc, program, request);
            of_request(alloc, program, step)
        }
    }
}

/// Goes on with the value that was waited for, to the end or the next question.
pub fn resume<P: Lookups>(alloc: Global, program: &P, wait: Wait, value: Value) -> Next
    ensures { let i = P.index program.now in
        let k = P.entries program.now in
        Reaches i k (waits i k wait value) result }
{
    match wait {
        Wait::File(wait) => of_file(ruby_machine_files::resume(alloc, program, wait, value)),
        Wait::Ancestors(wait) => {
            of_ancestors(ruby_machine_ancestors::resume(alloc, program, wait, value))
        }
        Wait::Request(wait) => {
            let step = ruby_machine_requests::resume(alloc, program, wait, value);
            of_request(alloc, program, step)
        }
        Wait::Code(core) => run_on(alloc, program, core, Ok(Control::Gives(value))),
    }
}
