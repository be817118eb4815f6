ghost use Rattle.std.specs.Prelude.{◌≡◌, ◌∷◌, [], ℕ, IfOk, List};
ghost use Rattle.std.specs.Option.{option_map};
ghost use Rattle.program_places.specs.Places.{Index};
ghost use Rattle.program_lookups.specs.Codes.{method_of};
ghost use Rattle.ruby_nodes.specs.Entries.{Entry};
ghost use Rattle.ruby_runs.specs.Runs as runs;
ghost use Rattle.ruby_runs.specs.Runs.{run_limits};
ghost use Rattle.ruby_types.specs.declared.value.Value.{Value, out-Value};
ghost use Rattle.ruby_types.specs.declared.value.Value.TheVariants as value;
ghost use Rattle.ruby_machine_names.specs.Profile.{profile};
ghost use Rattle.ruby_machine_names.specs.Steps.{here_of};
ghost use Rattle.ruby_machine_requests.specs.declared.run.RequestAwaits.TheVariants as awaits;
ghost use Rattle.ruby_machine_files.specs.Files.{finish};
ghost use Rattle.ruby_machine_requests.specs.Requests.{RequestGoes, called_on, referred, waits};

use crate::beginning::begun;
use lists::Copying;
use program_lookups::{Lookups, MethodCode, Scopes};
use ruby_machine_entering::{Giving, invoke};
use ruby_machine_frames::{Control, Core, Stop};
use ruby_machine_methods::{MethodStep, find_singleton, inherited_singleton};
use ruby_machine_names::{
    Failure, HereCode, NameStep, NameWait, Resolving, refer, resume as resume_name, spend,
};
use ruby_runs::NoReply;
use ruby_types::{CPath, Items, Request, Task, Value, copy_request};
use std::alloc::{AllocError, Global};

/// A request whose controller has a file: the path of the controller's constant, and the turns that are left.
#[derive(Drop)]
pub struct RequestRun {
    pub request: Request,
    pub path: CPath,
    pub turns: u32,
}

/// What a request waits for: its controller, or the ancestors of the class that its action is called on.
#[derive(Drop)]
pub enum RequestAwaits {
    Controller(NameWait),
    Action(CPath),
}

/// A request that waits for the value of a task.
#[derive(Drop)]
pub struct RequestWait {
    pub run: RequestRun,
    pub awaits: RequestAwaits,
}

/// What a request comes to next.
#[derive(Drop)]
pub enum RequestStep {
    /// It has no reply of its own.
    Without(NoReply),
    Asks(Task, RequestWait),
    /// Its action was called: what the machine does next, or how it stops.
    Calls(Core, Result<Control, Stop>),
}

/// The turns of a request.
const REQUEST_TURNS: u32 = 200_000;

/// A request has no file and no scope.
fn request_here(alloc: Global) -> HereCode
    ensures { here_of result ≡ runs.request_here run_limits }
{
    HereCode {
        file: None,
        scopes: Scopes::new(alloc),
        limit: REQUEST_TURNS,
    }
}

/// The one argument of an action.
fn action_args(alloc: Global, request: &Request) -> Result<Items, AllocError>
    ensures { IfOk result (λ args. args ≡ value.Hash request.now.params ∷ []) }
{
    let params = Value::Hash(request.params.copy()?);
    Items::from_vec(alloc, vec![in alloc; params]?)
}

/// Calls the action that was found, in the first frame.
fn call_action(
    alloc: Global,
    found: Option<&MethodCode>,
    mut run: RequestRun,
    called: CPath,
) -> Result<RequestStep, Failure>
    ensures { (index : Index) (known : List Entry) → RequestGoes index known
        (runs.action_call index profile run_limits run.request run.path (value.Module called)
        (option_map (λ m. method_of known m.now) found.entry) run.turns finish) result }
{
    let Some(method) = found else {
        return Ok(RequestStep::Without(NoReply::NoAction(run.path)));
    };
    let here = request_here(alloc);
    if !spend(&mut run.turns) {
        return Err(here.spent(alloc));
    }
    let args = action_args(alloc, &run.request)?;
    let mut core = begun(alloc, here, Value::Nil, run.turns);
    let on = Value::Module(called);
    let next = invoke(&mut core, alloc, method, on, &args, Giving::Value);
    Ok(RequestStep::Calls(core, next))
}

/// Finds the action among the singleton methods of a module or class.
fn find_action<P: Lookups>(
    alloc: Global,
    program: &P,
    mut run: RequestRun,
    called: CPath,
) -> Result<RequestStep, Failure>
    ensures { let i = P.index program.now in
        RequestGoes i (P.entries program.now) (called_on i run called) result }
{
    match find_singleton(program, &called, &run.request.action) {
        MethodStep::Found(method) => call_action(alloc, Some(method), run, called),
        MethodStep::Missing => call_action(alloc, None, run, called),
        MethodStep::Asks => {
            if !spend(&mut run.turns) {
                return Err(request_here(alloc).spent(alloc));
            }
            let task = Task::Ancestors(called.copy()?);
            let awaits = RequestAwaits::Action(called);
            Ok(RequestStep::Asks(task, RequestWait { run, awaits }))
        }
    }
}

/// Goes on with the value of the controller's constant.
fn control<P: Lookups>(
    alloc: Global,
    program: &P,
    run: RequestRun,
    controller: Value,
) -> Result<RequestStep, Failure>
    ensures { let i = P.index program.now in
        RequestGoes i (P.entries program.now)
        (runs.action_of i profile run_limits run.request run.path controller (out-Value controller) run.turns finish)
        result }
{
    match controller {
        Value::Module(called) => find_action(alloc, program, run, called),
        _ => Ok(RequestStep::Without(NoReply::NoAction(run.path))),
    }
}

/// Refers to a controller that has a file.
fn refer_controller<P: Lookups>(
    alloc: Global,
    program: &P,
    request: &Request,
    path: CPath,
) -> Result<RequestStep, Failure>
    ensures { let i = P.index program.now in
        RequestGoes i (P.entries program.now) (referred i request.now path) result }
{
    let mut turns = REQUEST_TURNS;
    let next = refer(
        alloc,
        program,
        &request_here(alloc),
        path.copy()?,
        &mut turns,
    )?;
    let run = RequestRun {
        request: copy_request(request)?,
        path,
        turns,
    };
    match next {
        NameStep::Gives(found) => control(alloc, program, run, found.value),
        NameStep::Asks(task, awaited) => {
            let awaits = RequestAwaits::Controller(NameWait {
                names: CPath::new(alloc),
                place: 0,
                in_code: false,
                awaited,
            });
            Ok(RequestStep::Asks(task, RequestWait { run, awaits }))
        }
    }
}

/// Begins a request. Without a route, or a file of its controller, it has none.
pub fn begin<P: Lookups>(
    alloc: Global,
    program: &P,
    request: &Request,
) -> Result<RequestStep, Failure>
    ensures { let i = P.index program.now in
        RequestGoes i (P.entries program.now)
        (runs.routed i profile run_limits request.now request.now.controller run_limits.request_turns finish) result }
{
    if request.controller.is_empty() {
        let path = CPath::new(alloc);
        return Ok(RequestStep::Without(NoReply::NoController(path)));
    }
    let path = program.controller(&request.controller)?;
    if program.has_file(&path) {
        refer_controller(alloc, program, request, path)
    } else {
        Ok(RequestStep::Without(NoReply::NoController(path)))
    }
}

/// Goes on with the value that a request waits for.
pub fn resume<P: Lookups>(
    alloc: Global,
    program: &P,
    wait: RequestWait,
    value: Value,
) -> Result<RequestStep, Failure>
    ensures { let i = P.index program.now in
        RequestGoes i (P.entries program.now) (waits i wait value) result }
{
    let RequestWait { run, awaits } = wait;
    match awaits {
        RequestAwaits::Controller(name) => resume_controller(alloc, program, run, name, value),
        RequestAwaits::Action(called) => {
            let found = inherited_singleton(alloc, program, &run.request.action, &value)?;
            call_action(alloc, found, run, called)
        }
    }
}

/// Goes on with a controller that is referred to.
fn resume_controller<P: Lookups>(
    alloc: Global,
    program: &P,
    mut run: RequestRun,
    wait: NameWait,
    value: Value,
) -> Result<RequestStep, Failure>
    ensures { let i = P.index program.now in
        RequestGoes i (P.entries program.now) (waits i (record { run = run; awaits = awaits.Controller wait }) value)
        result }
{
    let here = request_here(alloc);
    match resume_name(alloc, program, &here, wait, value, &mut run.turns)? {
        Resolving::Found(found) => control(alloc, program, run, found.value),
        Resolving::Asks(task, name) => {
            let awaits = RequestAwaits::Controller(name);
            Ok(RequestStep::Asks(task, RequestWait { run, awaits }))
        }
    }
}
