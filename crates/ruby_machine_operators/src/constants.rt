ghost use Rattle.std.specs.Prelude.{◌+◌, ℕ, List};
ghost use Rattle.program_places.specs.Places.{Index};
ghost use Rattle.ruby_nodes.specs.Entries.{Entry};
ghost use Rattle.ruby_runs.specs.Doing.{Doing};
ghost use Rattle.ruby_runs.specs.Names.{Found};
ghost use Rattle.ruby_machine_names.specs.Names as names;
ghost use Rattle.ruby_machine_names.specs.Steps.{WholeGoes, here_of};
ghost use Rattle.ruby_machine_frames.specs.declared.frames.Frame.TheVariants as frame;
ghost use Rattle.ruby_machine_frames.specs.Rest.{KeptFrom, const_from, load, with_turns};
ghost use Rattle.ruby_machine_values.specs.Beginning.{begins, handed};
ghost use Rattle.ruby_machine_operators.specs.Constants.{name_left};

use program_lookups::Lookups;
use ruby_machine_frames::{Control, Core, Frame, Stop};
use ruby_machine_names::{Failure, NameWait, Resolving, resolve_begun, resume};
use ruby_types::{ConstRef, Value};
use std::alloc::Global;

/// Gives the value of a constant that is resolved, or waits for a task.
fn resolved(core: &mut Core, step: Result<Resolving, Failure>) -> Result<Control, Stop>
    ensures { (index : Index) (known : List Entry) (d : Doing Found) (turns : ℕ) →
        WholeGoes (names.later index (here_of core.old.here)) d turns step core.old.turns →
        KeptFrom index known (const_from index known (with_turns core.old turns) d)
        (load (with_turns core.old turns) + 9) result core.new }
{
    match step {
        Ok(Resolving::Found(found)) => Ok(Control::Gives(found.value)),
        Ok(Resolving::Asks(task, wait)) => core.need(Frame::Names(wait), task),
        Err(failure) => Err(Stop::from(failure)),
    }
}

/// Evaluates a constant, each of whose names begins a turn.
pub fn begin_constant<P: Lookups>(
    core: &mut Core,
    alloc: Global,
    program: &P,
    constant: &ConstRef,
) -> Result<Control, Stop>
    ensures { let i = P.index program.now in
        let k = P.entries program.now in
        KeptFrom i k (begins (name_left i k constant.now) core.old) (load core.old) result core.new }
{
    if core.spend() {
        name_begun(core, alloc, program, constant)
    } else {
        Err(core.spent(alloc))
    }
}

/// The same where the turn of the first name is begun.
fn name_begun<P: Lookups>(
    core: &mut Core,
    alloc: Global,
    program: &P,
    constant: &ConstRef,
) -> Result<Control, Stop>
    ensures { let i = P.index program.now in
        let k = P.entries program.now in
        KeptFrom i k (name_left i k constant.now core.old) (load core.old + 9) result core.new }
{
    let step = resolve_begun(alloc, program, &core.here, true, constant, &mut core.turns);
    resolved(core, step)
}

/// Takes the value of a task that the names of a constant wait for.
pub fn give_task<P: Lookups>(
    core: &mut Core,
    alloc: Global,
    program: &P,
    wait: NameWait,
    value: Value,
) -> Result<Control, Stop>
    ensures { let i = P.index program.now in
        let k = P.entries program.now in
        KeptFrom i k (handed i k core.old (frame.Names wait) value) (load core.old + 9) result core.new }
{
    let step = resume(alloc, program, &core.here, wait, value, &mut core.turns);
    resolved(core, step)
}
