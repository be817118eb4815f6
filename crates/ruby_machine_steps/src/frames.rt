ghost use Rattle.std.specs.Prelude.{◌+◌};
ghost use Rattle.ruby_runs.specs.Bodies.{GoesOn, Returns};
ghost use Rattle.ruby_machine_state.specs.States.{state_of};
ghost use Rattle.ruby_machine_frames.specs.Rest.{KeptFrom, frame_meaning, load, weight};

use program_lookups::Lookups;
use ruby_machine_calls::{resume_initialize, resume_instance, resume_singleton};
use ruby_machine_collections::{give_inside, give_item, give_key, give_pair};
use ruby_machine_entering::{leave, leave_new};
use ruby_machine_expressions::{give_argument, give_receiver};
use ruby_machine_frames::{Control, Core, Frame, Stop};
use ruby_machine_operators::{give_and, give_choose, give_not, give_or, give_task};
use ruby_machine_statements::{assigned_local, assigned_variable, branched, raised};
use ruby_types::Value;
use std::alloc::Global;

/// Hands a value to a frame that was taken off.
pub fn give<P: Lookups>(
    core: &mut Core,
    alloc: Global,
    program: &P,
    frame: Frame,
    value: Value,
) -> Result<Control, Stop>
    ensures { let i = P.index program.now in
        let k = P.entries program.now in
        KeptFrom i k (frame_meaning i k core.old frame (GoesOn (state_of core.old.state) value))
        (load core.old + (weight frame + 5)) result core.new }
{
    match frame {
        Frame::Not => Ok(give_not(value)),
        Frame::And(right) => Ok(give_and(right, value)),
        Frame::Or(right) => Ok(give_or(right, value)),
        Frame::Choose(taken, other) => Ok(give_choose(taken, other, value)),
        Frame::Items(more, done) => give_item(core, alloc, program.nodes(), more, done, value),
        Frame::Key(expr, more, done) => give_key(core, expr, more, done, value),
        Frame::Pair(key, more, done) => give_pair(
            core,
            alloc,
            program.nodes(),
            key,
            more,
            done,
            value,
        ),
        Frame::Inside(more, bytes) => give_inside(core, alloc, program.nodes(), more, bytes, value),
        Frame::Receiver(name, first) => give_receiver(core, alloc, program, name, first, value),
        Frame::Args(on, name, more, done) => give_argument(
            core, alloc, program, on, name, more, done, value,
        ),
        Frame::Names(wait) => give_task(core, alloc, program, wait, value),
        Frame::Singleton(path, name, args) => resume_singleton(
            core, alloc, program, path, name, args, value,
        ),
        Frame::Instance(on, name, args) => resume_instance(
            core, alloc, program, on, name, args, value,
        ),
        Frame::Initialize(path, args) => resume_initialize(core, alloc, program, path, args, value),
        Frame::Then(next) => Ok(Control::Runs(next, value)),
        Frame::Set(name, next) => assigned_local(core, name, next, value),
        Frame::SetIvar(name, next) => assigned_variable(core, alloc, name, next, value),
        Frame::Return => Ok(Control::Returns(value)),
        Frame::Raise => Err(raised(core, alloc, value)),
        Frame::Branch(taken, arms, other) => branched(
            core,
            program.nodes(),
            taken,
            arms,
            other,
            value,
        ),
        Frame::Leave(caller) => leave(core, caller, value),
        Frame::LeaveNew(caller) => leave_new(core, alloc, caller),
    }
}

/// Hands a return to a frame that was taken off: it passes each frame but the end of its method.
pub fn pass<P: Lookups>(
    core: &mut Core,
    alloc: Global,
    program: &P,
    frame: Frame,
    value: Value,
) -> Result<Control, Stop>
    ensures { let i = P.index program.now in
        let k = P.entries program.now in
        KeptFrom i k (frame_meaning i k core.old frame (Returns (state_of core.old.state) value))
        (load core.old + (weight frame + 5)) result core.new }
{
    match frame {
        Frame::Leave(caller) => leave(core, caller, value),
        Frame::LeaveNew(caller) => leave_new(core, alloc, caller),
        _ => Ok(Control::Returns(value)),
    }
}
