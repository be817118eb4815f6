//! The steps of an open request.
ghost use Rattle.std.specs.Prelude.{◌≡◌, ◌<◌, length, IfOk};
ghost use Rattle.request_actor.specs.declared.actor.Stage.{Stage};
ghost use Rattle.request_actor.specs.declared.op.Op.{Op};
ghost use Rattle.seat_operations.specs.Readying.{IsMoved, GoesOn};
ghost use Rattle.seat_steps.specs.Theories.{theories_by};
ghost use Rattle.seat_steps.specs.declared.next.Next.{Next};
ghost use Rattle.seat_steps.specs.Stepping.{Comes, Operates, Steps};
ghost use Rattle.seat_steps.specs.Standing.{GoesOnAt, IsOpen, StaysOpen};

use crate::answering::{answer, one_line};
use crate::loading::{go_on_loading, open_section, resume};
use crate::next::{Next, OpenRequest, RequestOf, Stepped, SteppedOf};
use replay_files::Files;
use replay_matter::Replays;
use request_actor::{Actor, Answered, Op};
use seat_operations::{Came, CameOf, operate};
use seat_requests::ask_next;
use std::alloc::{AllocError, Global};
use system_core::System;

/// Opens a request that may begin: its first step is to share.
pub fn start<M: Replays>(
    system: &System<M>,
    seat: u32,
    request: M::Request,
) -> Result<RequestOf<M>, AllocError>
    requires { M.facts.IsRequest request }
    ensures started { IfOk result
        (λ opened. (opened.actor ≡ Stage.Shares request) × (opened.next ≡ Next.Does Op.Share)) }
    ensures open { IfOk result (IsOpen M.facts M.talks
        (theories_by M.Theory.rules M.Theory.runs M.theory_of) system.now.state seat) }
{
    let mut actor = Actor::new(request);
    ask_next(system, seat, &mut actor, Answered::Start)?;
    Ok(OpenRequest {
        actor,
        next: Next::Does(Op::Share),
    })
}

// What the step at an operation comes to.
fn came_to<M: Replays>(
    alloc: Global,
    system: &System<M>,
    seat: u32,
    actor: Actor<M>,
    came: CameOf<M>,
) -> Result<SteppedOf<M>, AllocError>
    requires goes { GoesOn M.facts M.talks system.now.state seat actor came }
    ensures comes { IfOk result (Comes M.talks system.now.state.counts.program actor came) }
    ensures open { IfOk result (StaysOpen M.facts M.talks
        (theories_by M.Theory.rules M.Theory.runs M.theory_of) system.now.state seat) }
{
    match came {
        Came::Answered(line, answered) => {
            let lines = one_line(alloc, line)?;
            answer(system, seat, actor, answered, lines)
        }
        Came::Sought(line, again) => {
            let lines = one_line(alloc, line)?;
            let next = Next::Does(again);
            Ok(Stepped::Went(lines, Some(OpenRequest { actor, next })))
        }
        Came::Waits(line, again) => {
            let next = Next::Does(again);
            Ok(Stepped::Waits(line, OpenRequest { actor, next }))
        }
        Came::Limit => Ok(Stepped::Limit),
    }
}

// The step at an operation.
fn operate_once<M: Replays>(
    alloc: Global,
    system: &mut System<M>,
    files: &mut Files,
    seat: u32,
    actor: Actor<M>,
    asked: Op<M>,
) -> Result<SteppedOf<M>, AllocError>
    requires seat { seat < length system.old.state.seats.lock.rows }
    requires below { seat < 64 }
    requires going { GoesOnAt M.facts M.talks (theories_by M.Theory.rules M.Theory.runs M.theory_of)
        system.old.state seat actor (Next.Does asked) }
    ensures operates { IfOk result (Operates M.facts M.talks M.words M.sources system.old.state
        system.new.state files.old.held seat actor asked) }
    ensures open { IfOk result (StaysOpen M.facts M.talks
        (theories_by M.Theory.rules M.Theory.runs M.theory_of) system.new.state seat) }
    ensures moved { IfOk result (λ _. IsMoved M.facts system.old.state system.new.state seat) }
    ensures files { files.new ≡ files.old }
{
    let came = operate(alloc, system, files, seat, &actor, asked)?;
    came_to(alloc, system, seat, actor, came)
}

/// The next step of a seat's open request. Behind it the request stands open again, unless it is over. After want of
/// memory it is dropped.
pub fn step<M: Replays>(
    alloc: Global,
    system: &mut System<M>,
    files: &mut Files,
    seat: u32,
    request: RequestOf<M>,
) -> Result<SteppedOf<M>, AllocError>
    requires seat { seat < length system.old.state.seats.lock.rows }
    requires below { seat < 64 }
    requires open { IsOpen M.facts M.talks (theories_by M.Theory.rules M.Theory.runs M.theory_of)
        system.old.state seat request }
    ensures steps { IfOk result (Steps M.facts M.talks M.words M.sources
        (theories_by M.Theory.rules M.Theory.runs M.theory_of) system.old.state system.new.state files.old.held seat
        request) }
    ensures open { IfOk result (StaysOpen M.facts M.talks
        (theories_by M.Theory.rules M.Theory.runs M.theory_of) system.new.state seat) }
    ensures moved { IfOk result (λ _. IsMoved M.facts system.old.state system.new.state seat) }
    ensures files { files.new ≡ files.old }
{
    let OpenRequest { actor, next } = request;
    match next {
        Next::Does(asked) => operate_once(alloc, system, files, seat, actor, asked),
        Next::Opens(task) => open_section(alloc, system, seat, actor, task),
        Next::Defines(loader) => go_on_loading(alloc, system, seat, actor, loader),
        Next::Resumes(ended) => resume(alloc, system, seat, actor, ended),
    }
}
