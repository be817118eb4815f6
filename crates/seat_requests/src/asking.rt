//! Asking a request for its next operation.
ghost use Rattle.std.specs.Prelude.{IfOk};
ghost use Rattle.request_actor.specs.Order.{Fits, Goes};
ghost use Rattle.seat_requests.specs.Standing.{IsReady, IsStanding};

use request_actor::{Actor, Answered, Op, Requests};
use std::alloc::AllocError;
use system_core::System;
use system_events::Cause;

/// Gives a seat's request an answer of the system, and asks it for what comes next. After want of memory the actor is
/// only dropped.
pub fn ask_next<M: Requests>(
    system: &System<M>,
    _seat: u32,
    actor: &mut Actor<M>,
    answered: Answered<M::Value, M::Error, Cause<M>>,
) -> Result<Op<M>, AllocError>
    requires fits { Fits actor.old answered }
    requires ready { IsReady M.facts M.talks system.now.state _seat actor.old answered }
    ensures order { IfOk result
        (λ asked. Goes M.talks system.now.state.counts.program actor.old answered asked actor.new) }
    ensures stands { IfOk result (λ asked. IsStanding M.facts M.talks system.now.state _seat actor.new asked) }
{
    system.tells_legal();
    actor.next(system.program(), answered)
}
