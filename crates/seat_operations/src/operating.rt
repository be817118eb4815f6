//! The step at each operation.
ghost use Rattle.std.specs.Prelude.{◌≡◌, ◌<◌, length, IfOk, Some, codes};
ghost use Rattle.request_actor.specs.Order.{request_at_stage};
ghost use Rattle.system_events.specs.declared.event.Act.{Act};
ghost use Rattle.system_events.specs.declared.event.Cause.{Cause};
ghost use Rattle.system_events.specs.declared.event.Kept.{Kept};
ghost use Rattle.system_events.specs.Steps.{Condition, IsTask};
ghost use Rattle.trace_lines.specs.Steps.{seat_line, end_text, refuse_text};
ghost use Rattle.seat_requests.specs.Standing.{IsStanding};
ghost use Rattle.seat_operations.specs.Coming.{Acts, Does, TakesWant, end_of, refuse_of};
ghost use Rattle.seat_operations.specs.Readying.{IsOneStep, IsMoved, GoesOn};

use crate::came::{Came, CameOf, Taking, Tried};
use crate::entering::{act, act_plainly, look};
use crate::exclusive::{release, take};
use crate::files::{check, reload};
use lists::Text;
use replay_files::Files;
use replay_matter::Replays;
use request_actor::{Actor, Answered, Op};
use std::alloc::{AllocError, Global};
use system_core::System;
use system_events::{Act, Cause, Matter, Want};
use trace_lines::{Step, step_line};

// The operation Take.
fn take_want<M: Replays>(
    alloc: Global,
    system: &mut System<M>,
    seat: u32,
    want: Want<M>,
) -> Result<CameOf<M>, AllocError>
    requires seat { seat < length system.old.state.seats.lock.rows }
    requires below { seat < 64 }
    requires task { IsTask M.facts system.old.state want }
    ensures { IfOk result (TakesWant M.facts M.words system.old.state system.new.state seat want) }
{
    match take(alloc, system, seat, &want)? {
        Taking::Taken(line) => Ok(Came::Answered(line, Answered::Done)),
        Taking::Sought(line) => Ok(Came::Sought(line, Op::Take(want))),
        Taking::Waits(line) => Ok(Came::Waits(line, Op::Take(want))),
        Taking::Full => Ok(Came::Limit),
    }
}

// The line of an End.
fn end_line<M: Replays>(
    alloc: Global,
    seat: u32,
    generation: u32,
    reply: &M::Reply,
) -> Result<Text, AllocError>
    requires { seat < 64 }
    ensures { IfOk result (λ line. line ≡ seat_line seat
        (end_text (M.words.status reply.now) generation (M.words.body reply.now))) }
{
    let status = u32::from(M::status(reply));
    let body = M::body(reply);
    step_line(alloc, seat, Step::End(status, generation, body))
}

// The line of a Refuse, whose cause this reply tells.
fn refuse_line<M: Replays>(alloc: Global, seat: u32, reply: &M::Reply) -> Result<Text, AllocError>
    requires { seat < 64 }
    ensures { IfOk result (λ line. line ≡ seat_line seat
        (refuse_text (M.words.status reply.now) (M.words.body reply.now))) }
{
    let status = u32::from(M::status(reply));
    let body = M::body(reply);
    step_line(alloc, seat, Step::Refuse(status, body))
}

// The reply of an End.
fn ending<M: Matter>(act: Act<M>) -> M::Reply
    requires { (reply : M.Reply) × (act ≡ Act.End reply) }
    ensures { act ≡ Act.End result }
{
    match act {
        Act::End(reply) => reply,
        _ => unreachable!(),
    }
}

// The cause of a Refuse.
fn refusing<M: Matter>(act: Act<M>) -> Cause<M>
    requires { (cause : Cause M M.Task M.Value M.Program M.Request M.Reply M.Fault) × (act ≡ Act.Refuse cause) }
    ensures { act ≡ Act.Refuse result }
{
    match act {
        Act::Refuse(cause) => cause,
        _ => unreachable!(),
    }
}

// The operation End.
fn end<M: Replays>(
    alloc: Global,
    system: &mut System<M>,
    seat: u32,
    reply: M::Reply,
) -> Result<CameOf<M>, AllocError>
    requires seat { seat < length system.old.state.seats.lock.rows }
    requires below { seat < 64 }
    requires condition { Condition M.facts system.old.state seat (Kept.End reply) }
    ensures { IfOk result (Acts M.facts system.old.state system.new.state seat (Kept.End reply)
        (end_of M.facts M.words system.old.state reply) (Op.End reply)) }
{
    let line = end_line::<M>(alloc, seat, system.generation(), &reply)?;
    match act(alloc, system, seat, Act::End(reply), line)? {
        Tried::Done(line) => Ok(Came::Answered(line, Answered::Done)),
        Tried::Waits(line, again) => Ok(Came::Waits(line, Op::End(ending(again)))),
        Tried::Full => Ok(Came::Limit),
    }
}

// The operation Refuse.
fn refuse<M: Replays>(
    alloc: Global,
    system: &mut System<M>,
    seat: u32,
    cause: Cause<M>,
) -> Result<CameOf<M>, AllocError>
    requires seat { seat < length system.old.state.seats.lock.rows }
    requires below { seat < 64 }
    requires condition { Condition M.facts system.old.state seat (Kept.Refuse cause) }
    ensures { IfOk result (Acts M.facts system.old.state system.new.state seat (Kept.Refuse cause)
        (refuse_of M.facts M.words cause) (Op.Refuse cause)) }
{
    let reply = M::refusal(alloc, &cause)?;
    let line = refuse_line::<M>(alloc, seat, &reply)?;
    match act(alloc, system, seat, Act::Refuse(cause), line)? {
        Tried::Done(line) => Ok(Came::Answered(line, Answered::Done)),
        Tried::Waits(line, again) => Ok(Came::Waits(line, Op::Refuse(refusing(again)))),
        Tried::Full => Ok(Came::Limit),
    }
}

// The operation Begin.
fn begin<M: Replays>(
    alloc: Global,
    system: &mut System<M>,
    seat: u32,
    actor: &Actor<M>,
) -> Result<CameOf<M>, AllocError>
    requires seat { seat < length system.old.state.seats.lock.rows }
    requires below { seat < 64 }
    requires standing { IsStanding M.facts M.talks system.old.state seat actor.now Op.Begin }
    ensures { IfOk result (λ came. (q : M.Request) × ((request_at_stage actor.now ≡ Some q)
        × Acts M.facts system.old.state system.new.state seat (Kept.Begin q) (codes "begin") Op.Begin came)) }
{
    match actor.request() {
        None => unreachable!(),
        Some(request) => {
            let begin = Act::Begin(M::copy_request(request)?);
            act_plainly(alloc, system, seat, begin, Step::Begin, Op::Begin)
        }
    }
}

// A step of a seat at an operation.
fn operate_on<M: Replays>(
    alloc: Global,
    system: &mut System<M>,
    files: &mut Files,
    seat: u32,
    actor: &Actor<M>,
    asked: Op<M>,
) -> Result<CameOf<M>, AllocError>
    requires seat { seat < length system.old.state.seats.lock.rows }
    requires below { seat < 64 }
    requires standing { IsStanding M.facts M.talks system.old.state seat actor.now asked }
    requires one { IsOneStep asked }
    ensures does { IfOk result (Does M.facts M.words M.sources system.old.state system.new.state
        files.old.held seat actor.now asked) }
    ensures files { files.new ≡ files.old }
{
    match asked {
        Op::Share => act_plainly(alloc, system, seat, Act::Share, Step::Share, Op::Share),
        Op::Check => check(alloc, system, files, seat),
        Op::Take(want) => take_want(alloc, system, seat, want),
        Op::Reload => reload(alloc, system, files, seat),
        Op::Release => release(alloc, system, seat),
        Op::Resume => act_plainly(alloc, system, seat, Act::Resume, Step::Resume, Op::Resume),
        Op::Begin => begin(alloc, system, seat, actor),
        Op::Look(task) => look(alloc, system, seat, &task),
        Op::Load(_) => unreachable!(),
        Op::End(reply) => end(alloc, system, seat, reply),
        Op::Refuse(cause) => refuse(alloc, system, seat, cause),
        Op::Unshare => act_plainly(
            alloc,
            system,
            seat,
            Act::Unshare,
            Step::Unshare,
            Op::Unshare,
        ),
        Op::Finished => unreachable!(),
    }
}

/// A step of a seat at an operation of its request, which is no load. Behind it the request is ready for the answer,
/// or it stands still at the operation.
pub fn operate<M: Replays>(
    alloc: Global,
    system: &mut System<M>,
    files: &mut Files,
    seat: u32,
    actor: &Actor<M>,
    asked: Op<M>,
) -> Result<CameOf<M>, AllocError>
    requires seat { seat < length system.old.state.seats.lock.rows }
    requires below { seat < 64 }
    requires standing { IsStanding M.facts M.talks system.old.state seat actor.now asked }
    requires one { IsOneStep asked }
    ensures does { IfOk result (Does M.facts M.words M.sources system.old.state system.new.state
        files.old.held seat actor.now asked) }
    ensures goes { IfOk result (GoesOn M.facts M.talks system.new.state seat actor.now) }
    ensures moved { IfOk result (λ _. IsMoved M.facts system.old.state system.new.state seat) }
    ensures files { files.new ≡ files.old }
{
    system.tells_laws();
    system.tells_legal();
    operate_on(alloc, system, files, seat, actor, asked)
}
