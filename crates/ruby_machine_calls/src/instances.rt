ghost use Rattle.std.specs.Prelude.{◌≡◌, ◌+◌};
ghost use Rattle.std.specs.Option.{option_map};
ghost use Rattle.program_lookups.specs.Codes.{method_of};
ghost use Rattle.ruby_runs.specs.Bodies.{GoesOn};
ghost use Rattle.ruby_types.specs.declared.value.Value.TheVariants as value;
ghost use Rattle.ruby_machine_names.specs.Steps.{here_of};
ghost use Rattle.ruby_machine_state.specs.States.{state_of};
ghost use Rattle.ruby_machine_frames.specs.declared.frames.Frame.TheVariants as frame;
ghost use Rattle.ruby_machine_calls.specs.Calls.{object_call};
ghost use Rattle.ruby_machine_frames.specs.Rest.{KeptFrom, frame_meaning, gives_of, instance_or, load};

use lists::Copying;
use program_lookups::{Lookups, MethodCode};
use ruby_machine_built_in::built_in;
use ruby_machine_entering::{Giving, invoke};
use ruby_machine_frames::{Control, Core, Frame, Stop};
use ruby_machine_methods::{MethodStep, find_instance, inherited_instance};
use ruby_types::{CPath, Items, Pairs, Task, Text, Value};
use std::alloc::Global;

/// Calls the instance method or reader that was found, or else a built-in method.
fn instance_by<P: Lookups>(
    core: &mut Core,
    alloc: Global,
    program: &P,
    found: Option<&MethodCode>,
    on: Value,
    name: &Text,
    args: &Items,
) -> Result<Control, Stop>
    ensures { let i = P.index program.now in
        let k = P.entries program.now in
        KeptFrom i k
        (instance_or i k core.old.left (here_of core.old.here) on name.now args.now
        (option_map (λ m. method_of k m.now) found.entry) core.old.turns (gives_of i k core.old))
        (load core.old + 9) result core.new }
{
    match found {
        Some(method) => invoke(core, alloc, method, on, args, Giving::Value),
        None => built_in(core, alloc, &on, name, args),
    }
}

/// Calls a method of an object.
pub fn call_object<P: Lookups>(
    core: &mut Core,
    alloc: Global,
    program: &P,
    class: CPath,
    variables: Pairs,
    name: Text,
    args: Items,
) -> Result<Control, Stop>
    ensures { let i = P.index program.now in
        let k = P.entries program.now in
        KeptFrom i k
        (object_call i k core.old.left (here_of core.old.here) class (value.Object class variables) name args
        core.old.turns (gives_of i k core.old)) (load core.old + 9) result core.new }
{
    match find_instance(program, &class, &name) {
        MethodStep::Found(method) => {
            let on = Value::Object(class, variables);
            instance_by(core, alloc, program, Some(method), on, &name, &args)
        }
        MethodStep::Missing => {
            let on = Value::Object(class, variables);
            instance_by(core, alloc, program, None, on, &name, &args)
        }
        MethodStep::Asks => {
            let task = Task::Ancestors(class.copy()?);
            let on = Value::Object(class, variables);
            core.turn_need(alloc, Frame::Instance(on, name, args), task)
        }
    }
}

/// A call on an object goes on with the ancestors of its class.
pub fn resume_instance<P: Lookups>(
    core: &mut Core,
    alloc: Global,
    program: &P,
    on: Value,
    name: Text,
    args: Items,
    ancestors: Value,
) -> Result<Control, Stop>
    ensures { let i = P.index program.now in
        let k = P.entries program.now in
        KeptFrom i k
        (frame_meaning i k core.old (frame.Instance on name args) (GoesOn (state_of core.old.state) ancestors))
        (load core.old + 9) result core.new }
{
    let found = inherited_instance(alloc, program, &name, &ancestors)?;
    instance_by(core, alloc, program, found, on, &name, &args)
}
