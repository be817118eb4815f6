ghost use Rattle.std.specs.Prelude.{◌+◌, [], List};
ghost use Rattle.ruby_machine_frames.specs.declared.frames.Frame.TheVariants as frame;
ghost use Rattle.ruby_machine_frames.specs.Rest.{KeptFrom, load};
ghost use Rattle.ruby_machine_values.specs.Beginning.{begins, handed};
ghost use Rattle.ruby_machine_expressions.specs.Arguments.{args_left, own_args_left};

use lists::Copying;
use program_lookups::Lookups;
use ruby_machine_calls::call;
use ruby_machine_frames::{Control, Core, Frame, Stop, first_item};
use ruby_types::{Items, Text, Value};
use std::alloc::Global;

/// Goes on with the arguments of a call from a node on, behind those that are done. Behind the last one the method is
/// called.
fn next_argument<P: Lookups>(
    core: &mut Core,
    alloc: Global,
    program: &P,
    on: Value,
    name: Text,
    more: u32,
    done: Items,
) -> Result<Control, Stop>
    ensures { let i = P.index program.now in
        let k = P.entries program.now in
        KeptFrom i k (args_left i k on name more done core.old) (load core.old + 9) result core.new }
{
    match first_item(program.nodes(), more) {
        Some((first, others)) => core.push_eval(Frame::Args(on, name, others, done), first),
        None => call(core, alloc, program, on, name, done),
    }
}

/// Begins a call on self, by the node of its first argument.
pub fn begin_own_call<P: Lookups>(
    core: &mut Core,
    alloc: Global,
    program: &P,
    name: &Text,
    first: u32,
) -> Result<Control, Stop>
    ensures { let i = P.index program.now in
        let k = P.entries program.now in
        KeptFrom i k (begins (own_args_left i k name.now first) core.old) (load core.old) result core.new }
{
    if core.spend() {
        own_call(core, alloc, program, name, first)
    } else {
        Err(core.spent(alloc))
    }
}

/// The same where its turn is begun.
fn own_call<P: Lookups>(
    core: &mut Core,
    alloc: Global,
    program: &P,
    name: &Text,
    first: u32,
) -> Result<Control, Stop>
    ensures { let i = P.index program.now in
        let k = P.entries program.now in
        KeptFrom i k (own_args_left i k name.now first core.old) (load core.old + 9) result core.new }
{
    let itself = core.state.itself.copy()?;
    next_argument(
        core,
        alloc,
        program,
        itself,
        name.copy()?,
        first,
        Items::new(alloc),
    )
}

/// Takes the receiver of a call, whose arguments are next.
pub fn give_receiver<P: Lookups>(
    core: &mut Core,
    alloc: Global,
    program: &P,
    name: Text,
    first: u32,
    on: Value,
) -> Result<Control, Stop>
    ensures { let i = P.index program.now in
        let k = P.entries program.now in
        KeptFrom i k (handed i k core.old (frame.Receiver name first) on) (load core.old + 9) result core.new }
{
    next_argument(core, alloc, program, on, name, first, Items::new(alloc))
}

/// Takes an argument of a call.
pub fn give_argument<P: Lookups>(
    core: &mut Core,
    alloc: Global,
    program: &P,
    on: Value,
    name: Text,
    more: u32,
    mut done: Items,
    argument: Value,
) -> Result<Control, Stop>
    ensures { let i = P.index program.now in
        let k = P.entries program.now in
        KeptFrom i k (handed i k core.old (frame.Args on name more done) argument) (load core.old + 9) result core.new }
{
    done.push(argument)?;
    next_argument(core, alloc, program, on, name, more, done)
}
