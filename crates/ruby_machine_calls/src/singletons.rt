ghost use Rattle.std.specs.Prelude.{◌≡◌, ◌+◌, ◌&&◌, IfOk, bytes_eq, codes};
ghost use Rattle.std.specs.Option.{option_map};
ghost use Rattle.program_lookups.specs.Codes.{method_of};
ghost use Rattle.ruby_runs.specs.Bodies.{GoesOn, frames_of, is_class_at, makes_new};
ghost use Rattle.ruby_runs.specs.Bodies as bodies;
ghost use Rattle.ruby_types.specs.declared.value.Value.TheVariants as value;
ghost use Rattle.ruby_machine_names.specs.Profile.{profile};
ghost use Rattle.ruby_machine_names.specs.Steps.{here_of};
ghost use Rattle.ruby_machine_state.specs.States.{state_of};
ghost use Rattle.ruby_machine_frames.specs.declared.frames.Frame.TheVariants as frame;
ghost use Rattle.ruby_machine_calls.specs.Calls.{module_call};
ghost use Rattle.ruby_machine_frames.specs.Rest.{KeptFrom, frame_meaning, gives_of, load, new_by, singleton_or};

use lists::Copying;
use program_lookups::{Lookups, MethodCode};
use ruby_machine_built_in::{built_in, wrong_count};
use ruby_machine_entering::{Giving, invoke};
use ruby_machine_frames::{Control, Core, Frame, Stop};
use ruby_machine_methods::{
    MethodStep, find_instance, find_singleton, inherited_instance, inherited_singleton,
};
use ruby_machine_names::is_class;
use ruby_machine_values::made;
use ruby_types::{CPath, Items, Pairs, Task, Text, Value};
use std::alloc::{AllocError, Global};

/// Makes an object by the `initialize` that was found. Without one no argument is taken.
fn new_object<P: Lookups>(
    core: &mut Core,
    alloc: Global,
    program: &P,
    found: Option<&MethodCode>,
    path: CPath,
    args: &Items,
) -> Result<Control, Stop>
    ensures { let i = P.index program.now in
        let k = P.entries program.now in
        KeptFrom i k
        (new_by i k core.old.left (here_of core.old.here) path args.now
        (option_map (λ m. method_of k m.now) found.entry)
        core.old.turns (gives_of i k core.old)) (load core.old + 9) result core.new }
{
    let object = Value::Object(path, Pairs::new(alloc));
    match found {
        Some(method) => invoke(core, alloc, method, object, args, Giving::Object),
        None if args.is_empty() => made(core, alloc, object),
        None => Err(wrong_count(alloc, &core.here, args.len(), 0)),
    }
}

fn initialize_name(alloc: Global) -> Result<Text, AllocError>
    ensures { IfOk result (λ name. name ≡ codes "initialize") }
{
    Text::from_bytes(alloc, b"initialize")
}

/// `new` of a class.
fn make_new<P: Lookups>(
    core: &mut Core,
    alloc: Global,
    program: &P,
    path: CPath,
    args: Items,
) -> Result<Control, Stop>
    ensures { let i = P.index program.now in
        let k = P.entries program.now in
        KeptFrom i k
        (makes_new i profile (frames_of i profile core.old.left) (here_of core.old.here) path args core.old.turns
        (gives_of i k core.old)) (load core.old + 9) result core.new }
{
    let name = initialize_name(alloc)?;
    match find_instance(program, &path, &name) {
        MethodStep::Found(method) => { new_object(core, alloc, program, Some(method), path, &args) }
        MethodStep::Missing => new_object(core, alloc, program, None, path, &args),
        MethodStep::Asks => {
            let task = Task::Ancestors(path.copy()?);
            core.turn_need(alloc, Frame::Initialize(path, args), task)
        }
    }
}

/// `new` goes on with the ancestors of its class.
pub fn resume_initialize<P: Lookups>(
    core: &mut Core,
    alloc: Global,
    program: &P,
    path: CPath,
    args: Items,
    ancestors: Value,
) -> Result<Control, Stop>
    ensures { let i = P.index program.now in
        let k = P.entries program.now in
        KeptFrom i k
        (frame_meaning i k core.old (frame.Initialize path args) (GoesOn (state_of core.old.state) ancestors))
        (load core.old + 9) result core.new }
{
    let name = initialize_name(alloc)?;
    let found = inherited_instance(alloc, program, &name, &ancestors)?;
    new_object(core, alloc, program, found, path, &args)
}

/// Whether a call is `new` of a class.
fn is_new<P: Lookups>(program: &P, path: &CPath, name: &Text) -> bool
    ensures { result ≡ (bytes_eq name.now (codes "new") && is_class_at ((P.index program.now).place path.now)) }
{
    name.as_bytes() == b"new".as_slice() && is_class(program, path)
}

/// `new` of a class, or else a built-in method.
fn new_or_built_in<P: Lookups>(
    core: &mut Core,
    alloc: Global,
    program: &P,
    path: CPath,
    name: &Text,
    args: Items,
) -> Result<Control, Stop>
    ensures { let i = P.index program.now in
        let k = P.entries program.now in
        KeptFrom i k
        (bodies.new_or_built_in i profile (frames_of i profile core.old.left) (here_of core.old.here)
        (value.Module path) path name.now args core.old.turns (gives_of i k core.old))
        (load core.old + 9) result core.new }
{
    if is_new(program, &path, name) {
        make_new(core, alloc, program, path, args)
    } else {
        built_in(core, alloc, &Value::Module(path), name, &args)
    }
}

/// Calls the singleton method that was found, or else `new` or a built-in method.
fn singleton_by<P: Lookups>(
    core: &mut Core,
    alloc: Global,
    program: &P,
    found: Option<&MethodCode>,
    path: CPath,
    name: &Text,
    args: Items,
) -> Result<Control, Stop>
    ensures { let i = P.index program.now in
        let k = P.entries program.now in
        KeptFrom i k
        (singleton_or i k core.old.left (here_of core.old.here) path name.now args
        (option_map (λ m. method_of k m.now) found.entry) core.old.turns (gives_of i k core.old))
        (load core.old + 9) result core.new }
{
    match found {
        Some(method) => invoke(
            core,
            alloc,
            method,
            Value::Module(path),
            &args,
            Giving::Value,
        ),
        None => new_or_built_in(core, alloc, program, path, name, args),
    }
}

/// Calls a method of a module or class.
pub fn call_module<P: Lookups>(
    core: &mut Core,
    alloc: Global,
    program: &P,
    path: CPath,
    name: Text,
    args: Items,
) -> Result<Control, Stop>
    ensures { let i = P.index program.now in
        let k = P.entries program.now in
        KeptFrom i k
        (module_call i k core.old.left (here_of core.old.here) path name args core.old.turns (gives_of i k core.old))
        (load core.old + 9) result core.new }
{
    match find_singleton(program, &path, &name) {
        MethodStep::Found(method) => {
            singleton_by(core, alloc, program, Some(method), path, &name, args)
        }
        MethodStep::Missing => singleton_by(core, alloc, program, None, path, &name, args),
        MethodStep::Asks => {
            let task = Task::Ancestors(path.copy()?);
            core.turn_need(alloc, Frame::Singleton(path, name, args), task)
        }
    }
}

/// A call on a class goes on with its ancestors.
pub fn resume_singleton<P: Lookups>(
    core: &mut Core,
    alloc: Global,
    program: &P,
    path: CPath,
    name: Text,
    args: Items,
    ancestors: Value,
) -> Result<Control, Stop>
    ensures { let i = P.index program.now in
        let k = P.entries program.now in
        KeptFrom i k
        (frame_meaning i k core.old (frame.Singleton path name args) (GoesOn (state_of core.old.state) ancestors))
        (load core.old + 9) result core.new }
{
    let found = inherited_singleton(alloc, program, &name, &ancestors)?;
    singleton_by(core, alloc, program, found, path, &name, args)
}
