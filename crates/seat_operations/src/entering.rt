//! Steps that are one event of the seat, and looks.
ghost use Rattle.std.specs.Prelude.{◌≡◌, ◌<◌, length, IfOk};
ghost use Rattle.system_events.specs.Steps.{Condition, IsKnown, kept_of};
ghost use Rattle.trace_lines.specs.Steps.{step_text, step_line};
ghost use Rattle.seat_operations.specs.Coming.{Tries, Acts, Looks, waits_line};

use crate::came::{Came, CameOf, Tried};
use lists::Text;
use replay_matter::Replays;
use request_actor::{Answered, Op};
use seat_requests::{Entered, enter};
use std::alloc::{AllocError, Global};
use system_core::System;
use system_events::{Act, Matter};
use trace_lines::{Step, step_line};

// The line of a seat that waits.
pub(crate) fn waits_line(alloc: Global, seat: u32) -> Result<Text, AllocError>
    requires { seat < 64 }
    ensures { IfOk result (λ line. line ≡ waits_line seat) }
{
    step_line(alloc, seat, Step::Waits)
}

/// Tries an act of a seat, which this line tells where it is done.
pub fn act<M: Matter>(
    alloc: Global,
    system: &mut System<M>,
    seat: u32,
    act: Act<M>,
    line: Text,
) -> Result<Tried<M>, AllocError>
    requires seat { seat < length system.old.state.seats.lock.rows }
    requires below { seat < 64 }
    requires condition { Condition M.facts system.old.state seat (kept_of act) }
    requires known { IsKnown M.facts system.old.state act }
    ensures { IfOk result (Tries M.facts system.old.state system.new.state seat act line) }
{
    match enter(system, seat, act)? {
        Entered::Done => Ok(Tried::Done(line)),
        Entered::Waits(again) => Ok(Tried::Waits(waits_line(alloc, seat)?, again)),
        Entered::Full => Ok(Tried::Full),
    }
}

// A step at an operation that is this act, told by this step and answered by Done.
pub(crate) fn act_plainly<M: Replays>(
    alloc: Global,
    system: &mut System<M>,
    seat: u32,
    event: Act<M>,
    step: Step<'_>,
    asked: Op<M>,
) -> Result<CameOf<M>, AllocError>
    requires seat { seat < length system.old.state.seats.lock.rows }
    requires below { seat < 64 }
    requires condition { Condition M.facts system.old.state seat (kept_of event) }
    requires known { IsKnown M.facts system.old.state event }
    ensures { IfOk result (Acts M.facts system.old.state system.new.state seat (kept_of event)
        (step_text step.entry) asked) }
{
    let line = step_line(alloc, seat, step)?;
    match act(alloc, system, seat, event, line)? {
        Tried::Done(line) => Ok(Came::Answered(line, Answered::Done)),
        Tried::Waits(line, _) => Ok(Came::Waits(line, asked)),
        Tried::Full => Ok(Came::Limit),
    }
}

/// A look of a seat at a task.
pub fn look<M: Replays>(
    alloc: Global,
    system: &System<M>,
    seat: u32,
    task: &M::Task,
) -> Result<CameOf<M>, AllocError>
    requires { seat < 64 }
    ensures { IfOk result
        (Looks M.facts M.words system.now.state system.now.state seat task.now) }
{
    let name = M::task_name(alloc, task)?;
    match system.value(task) {
        Some(value) => {
            let line = step_line(alloc, seat, Step::LookFound(name.as_bytes()))?;
            Ok(Came::Answered(line, Answered::Found(M::copy_value(value)?)))
        }
        None => {
            let line = step_line(alloc, seat, Step::LookMissing(name.as_bytes()))?;
            Ok(Came::Answered(line, Answered::Missing))
        }
    }
}
