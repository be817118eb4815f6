ghost use Rattle.ruby_machine_frames.specs.declared.frames.Control.TheVariants as control;
ghost use Rattle.ruby_machine_frames.specs.Rest.{Kept, RunsTo};
ghost use Rattle.ruby_machine_steps.specs.Falling.{Falls};

use crate::frames::{give, pass};
use program_lookups::Lookups;
use ruby_machine_expressions::eval;
use ruby_machine_frames::{Control, Core, Stop};
use ruby_machine_statements::run_statements;
use ruby_types::Value;
use std::alloc::Global;

/// Hands a value to the frame on top. Behind the last frame it is the run's.
fn gives<P: Lookups>(
    core: &mut Core,
    alloc: Global,
    program: &P,
    value: Value,
) -> Result<Control, Stop>
    ensures { Kept (P.index program.now) (P.entries program.now) core.old (control.Gives value) result core.new }
{
    match core.frames.pop() {
        None => Err(Stop::Done(value)),
        Some(frame) => give(core, alloc, program, frame, value),
    }
}

/// Hands a return to the frame on top. Behind the last frame its value is the run's.
fn returns<P: Lookups>(
    core: &mut Core,
    alloc: Global,
    program: &P,
    value: Value,
) -> Result<Control, Stop>
    ensures { Kept (P.index program.now) (P.entries program.now) core.old (control.Returns value) result core.new }
{
    match core.frames.pop() {
        None => Err(Stop::Done(value)),
        Some(frame) => pass(core, alloc, program, frame, value),
    }
}

/// One step of the machine.
fn step<P: Lookups>(
    core: &mut Core,
    alloc: Global,
    program: &P,
    now: Control,
) -> Result<Control, Stop>
    ensures { Kept (P.index program.now) (P.entries program.now) core.old now result core.new }
{
    match now {
        Control::Eval(at) => eval(core, alloc, program, at),
        Control::Gives(value) => gives(core, alloc, program, value),
        Control::Runs(at, last) => run_statements(core, alloc, program, at, last),
        Control::Returns(value) => returns(core, alloc, program, value),
    }
}

/// Goes on until the machine stops: with the run's answer, or for a task. With the task's value it goes on from
/// `Control::Gives`.
pub fn run<P: Lookups>(core: &mut Core, alloc: Global, program: &P, now: Control) -> Stop
    ensures runs { RunsTo (P.index program.now) (P.entries program.now) core.old now result core.new }
    ensures falls { Falls core.old now result core.new }
{
    let mut next = now;
    'steps: loop {
        match step(core, alloc, program, next) {
            Ok(control) => next = control,
            Err(stop) => return stop,
        }
    }
}
