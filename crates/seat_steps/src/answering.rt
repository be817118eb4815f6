//! Going on behind the answer of an operation.
ghost use Rattle.std.specs.Prelude.{◌≡◌, [], ◌∷◌, IfOk};
ghost use Rattle.request_actor.specs.Order.{Fits};
ghost use Rattle.seat_requests.specs.Standing.{IsReady};
ghost use Rattle.seat_steps.specs.Theories.{theories_by};
ghost use Rattle.seat_steps.specs.Stepping.{next_for, opened_at, Answers};
ghost use Rattle.seat_steps.specs.Standing.{StaysOpen};

use crate::next::{Next, NextOf, OpenRequest, RequestOf, Stepped, SteppedOf};
use lists::{Listed, Text};
use replay_matter::Replays;
use request_actor::{Actor, Op};
use seat_operations::AnswerOf;
use seat_requests::ask_next;
use std::alloc::{AllocError, Global};
use system_core::System;

/// The list of one line.
pub(crate) fn one_line(alloc: Global, line: Text) -> Result<Listed<Text>, AllocError>
    ensures { IfOk result (λ lines. lines ≡ line ∷ []) }
{
    let mut lines = Listed::new(alloc);
    lines.push(line)?;
    Ok(lines)
}

// What a request does next that was asked for an operation.
fn next_for<M: Replays>(asked: Op<M>) -> Option<NextOf<M>>
    ensures { result ≡ next_for asked }
{
    match asked {
        Op::Load(task) => Some(Next::Opens(task)),
        Op::Finished => None,
        asked => Some(Next::Does(asked)),
    }
}

/// A request that was asked for an operation; None where it is over.
pub(crate) fn opened_at<M: Replays>(actor: Actor<M>, asked: Op<M>) -> Option<RequestOf<M>>
    ensures { result ≡ opened_at actor (next_for asked) }
{
    let next = next_for::<M>(asked)?;
    Some(OpenRequest { actor, next })
}

/// A step whose operation has this answer, told by these lines.
pub(crate) fn answer<M: Replays>(
    system: &System<M>,
    seat: u32,
    actor: Actor<M>,
    answered: AnswerOf<M>,
    lines: Listed<Text>,
) -> Result<SteppedOf<M>, AllocError>
    requires fits { Fits actor answered }
    requires ready { IsReady M.facts M.talks system.now.state seat actor answered }
    ensures answers { IfOk result
        (Answers M.talks system.now.state.counts.program actor answered lines) }
    ensures open { IfOk result (StaysOpen M.facts M.talks
        (theories_by M.Theory.rules M.Theory.runs M.theory_of) system.now.state seat) }
{
    let mut actor = actor;
    let asked = ask_next(system, seat, &mut actor, answered)?;
    Ok(Stepped::Went(lines, opened_at(actor, asked)))
}
