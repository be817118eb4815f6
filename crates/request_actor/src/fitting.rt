//! Which answers fit what was asked for.
ghost use Rattle.std.specs.Prelude.{◌↔◌, IsTrue};
ghost use Rattle.request_actor.specs.Order.{FitsStart, FitsDone, FitsCheck, FitsReload, FitsRelease, FitsLook};
ghost use Rattle.request_actor.specs.Order.{FitsLoad, IsFaultCause};

use crate::op::Answered;
use crate::requests::Requests;
use system_events::{Cause, Matter};

// Whether a check or a reload may fail for this.
fn is_fault<M: Matter>(cause: &Cause<M>) -> bool
    ensures { IsTrue result ↔ IsFaultCause cause.now }
{
    match cause {
        Cause::Memory => false,
        _ => true,
    }
}

// Whether nothing was asked for yet.
pub(crate) fn is_start<M: Requests>(answered: &Answered<M::Value, M::Error, Cause<M>>) -> bool
    ensures { IsTrue result ↔ FitsStart answered.now }
{
    match answered {
        Answered::Start => true,
        _ => false,
    }
}

// The answer of what can only be done.
pub(crate) fn is_done<M: Requests>(answered: &Answered<M::Value, M::Error, Cause<M>>) -> bool
    ensures { IsTrue result ↔ FitsDone answered.now }
{
    match answered {
        Answered::Done => true,
        _ => false,
    }
}

// The answers of a check.
pub(crate) fn is_of_check<M: Requests>(answered: &Answered<M::Value, M::Error, Cause<M>>) -> bool
    ensures { IsTrue result ↔ FitsCheck answered.now }
{
    match answered {
        Answered::Same | Answered::Differs => true,
        Answered::Fault(cause) => is_fault(cause),
        _ => false,
    }
}

// The answers of a reload.
pub(crate) fn is_of_reload<M: Requests>(answered: &Answered<M::Value, M::Error, Cause<M>>) -> bool
    ensures { IsTrue result ↔ FitsReload answered.now }
{
    match answered {
        Answered::Done | Answered::Same => true,
        Answered::Fault(cause) => is_fault(cause),
        _ => false,
    }
}

// The answers of a release.
pub(crate) fn is_of_release<M: Requests>(answered: &Answered<M::Value, M::Error, Cause<M>>) -> bool
    ensures { IsTrue result ↔ FitsRelease answered.now }
{
    match answered {
        Answered::Done | Answered::Waits => true,
        _ => false,
    }
}

// The answers of a look.
pub(crate) fn is_of_look<M: Requests>(answered: &Answered<M::Value, M::Error, Cause<M>>) -> bool
    ensures { IsTrue result ↔ FitsLook answered.now }
{
    match answered {
        Answered::Found(_) | Answered::Missing => true,
        _ => false,
    }
}

// The answers of a load.
pub(crate) fn is_of_load<M: Requests>(answered: &Answered<M::Value, M::Error, Cause<M>>) -> bool
    ensures { IsTrue result ↔ FitsLoad answered.now }
{
    match answered {
        Answered::Done | Answered::Failed(_) => true,
        _ => false,
    }
}
