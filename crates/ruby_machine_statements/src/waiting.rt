ghost use Rattle.std.specs.Prelude.{◌≡◌, ◌+◌, List, OnOk, Err};
ghost use Rattle.program_places.specs.Places.{Index};
ghost use Rattle.ruby_nodes.specs.Entries.{Entry};
ghost use Rattle.ruby_runs.specs.Bodies.{GoesOn};
ghost use Rattle.ruby_machine_names.specs.Steps.{here_of};
ghost use Rattle.ruby_machine_state.specs.States.{state_of};
ghost use Rattle.ruby_machine_frames.specs.declared.frames.Frame.TheVariants as frame;
ghost use Rattle.ruby_machine_frames.specs.Rest.{AssignsLocal, AssignsVariable, KeptFrom, RaisesWith, frame_meaning};
ghost use Rattle.ruby_machine_frames.specs.Rest.{load};

use crate::statements::first_branch;
use lists::Copying;
use ruby_machine_frames::{Control, Core, Stop, stop_with};
use ruby_machine_state::{assign, with_variable};
use ruby_machine_values::is_truthy;
use ruby_nodes::NodeTable;
use ruby_types::{ErrorClass, Text, Value};
use std::alloc::{AllocError, Global};
use std::mem;

fn assign_local(core: &mut Core, name: Text, value: Value) -> Result<(), AllocError>
    ensures { OnOk result (AssignsLocal core.old name value core.new) }
{
    assign(&mut core.state.locals, name, value)
}

/// Assigns the value to a local, and goes on with the statements behind it.
pub fn assigned_local(core: &mut Core, name: Text, next: u32, value: Value) -> Result<Control, Stop>
    ensures { (index : Index) (known : List Entry) → KeptFrom index known
        (frame_meaning index known core.old (frame.Set name next) (GoesOn (state_of core.old.state) value))
        (load core.old + 9) result core.new }
{
    let last = value.copy()?;
    assign_local(core, name, value)?;
    Ok(Control::Runs(next, last))
}

fn assign_variable(
    core: &mut Core,
    alloc: Global,
    name: Text,
    value: Value,
) -> Result<(), AllocError>
    ensures { OnOk result (AssignsVariable core.old name value core.new) }
{
    let itself = mem::replace(&mut core.state.itself, Value::Nil);
    core.state.itself = with_variable(alloc, itself, name, value)?;
    Ok(())
}

/// Assigns the value to an instance variable of self, and goes on with the statements behind it.
pub fn assigned_variable(
    core: &mut Core,
    alloc: Global,
    name: Text,
    next: u32,
    value: Value,
) -> Result<Control, Stop>
    ensures { (index : Index) (known : List Entry) → KeptFrom index known
        (frame_meaning index known core.old (frame.SetIvar name next) (GoesOn (state_of core.old.state) value))
        (load core.old + 9) result core.new }
{
    let last = value.copy()?;
    assign_variable(core, alloc, name, value)?;
    Ok(Control::Runs(next, last))
}

fn raised_with(core: &Core, alloc: Global, value: Value) -> Stop
    ensures { RaisesWith (here_of core.now.here) value result }
{
    match value {
        Value::Str(text) => stop_with(core.here.error(alloc, ErrorClass::Runtime, text)),
        _ => match Text::from_bytes(alloc, b"exception text expected") {
            Ok(text) => stop_with(core.here.error(alloc, ErrorClass::Kind, text)),
            Err(_) => Stop::Memory,
        },
    }
}

/// Raises the value, which is a text.
pub fn raised(core: &Core, alloc: Global, value: Value) -> Stop
    ensures { (index : Index) (known : List Entry) → KeptFrom index known
        (frame_meaning index known core.now frame.Raise (GoesOn (state_of core.now.state) value))
        (load core.now + 9) (Err result) core.now }
{
    raised_with(core, alloc, value)
}

/// Runs the statements of an arm whose condition has this value, if it is true, and else looks at the arms behind it.
pub fn branched(
    core: &mut Core,
    nodes: &NodeTable,
    taken: u32,
    arms: u32,
    other: u32,
    value: Value,
) -> Result<Control, Stop>
    ensures { (index : Index) → KeptFrom index nodes.now
        (frame_meaning index nodes.now core.old (frame.Branch taken arms other)
        (GoesOn (state_of core.old.state) value))
        (load core.old + 9) result core.new }
{
    if is_truthy(&value) {
        Ok(Control::Runs(taken, Value::Nil))
    } else {
        first_branch(core, nodes, arms, other)
    }
}
