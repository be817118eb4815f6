//! Trying an act of a seat.
ghost use Rattle.std.specs.Prelude.{◌≡◌, ◌<◌, length, IfOk};
ghost use Rattle.system_events.specs.Steps.{Condition, IsKnown, kept_of};
ghost use Rattle.seat_requests.specs.Trying.{is_limit};
ghost use Rattle.seat_requests.specs.Standing.{IsEntered};

use std::alloc::AllocError;
use system_core::System;
use system_events::{Act, Applied, Event, Matter};
use system_seats::Guard;

/// What comes of an act that is tried.
#[derive(Drop)]
pub enum Entered<M: Matter> {
    /// It stands in the history.
    Done,
    /// A guard refuses it, and here it is.
    Waits(Act<M>),
    /// A limit is met.
    Full,
}

// Whether a guard tells a limit of requests, replies, generations or kept bytes.
fn is_limit(guard: Guard) -> bool
    ensures { result ≡ is_limit guard }
{
    matches!(
        &guard,
        Guard::RequestsFull(_)
            | Guard::RepliesFull(_)
            | Guard::GenerationsFull(_)
            | Guard::KeptFull(_)
    )
}

/// Tries an act of a seat.
pub fn enter<M: Matter>(
    system: &mut System<M>,
    seat: u32,
    act: Act<M>,
) -> Result<Entered<M>, AllocError>
    requires seat { seat < length system.old.state.seats.lock.rows }
    requires condition { Condition M.facts system.old.state seat (kept_of act) }
    requires known { IsKnown M.facts system.old.state act }
    ensures { IfOk result (IsEntered M.facts system.old.state system.new.state seat (kept_of act) act) }
{
    system.reserve(1, 1)?;
    match system.apply(Event { seat, act }) {
        Applied::Done => Ok(Entered::Done),
        Applied::Refused(guard, event) => {
            if is_limit(guard) {
                Ok(Entered::Full)
            } else {
                Ok(Entered::Waits(event.act))
            }
        }
    }
}
