//! Playing events over a system of letters, each where its caller's condition holds.
ghost use Rattle.std.specs.Prelude.{◌≡◌, ◌<◌, ℕ, length, None, IfSome};
ghost use Rattle.system_events.specs.State.{State, is_in, running_request};
ghost use Rattle.system_core_cases.specs.declared.letters.Letters.{Letters};
ghost use Rattle.system_core_cases.specs.declared.letters.Letter.{Letter};
ghost use Rattle.system_events.specs.Steps.{Condition, IsKnown, kept_of};
ghost use Rattle.system_core_cases.specs.Letters.{letters};

use crate::letters::{Letter, Letters, needs, number};
use std::alloc::AllocError;
use system_core::System;
use system_events::{Act, Applied, Cause, Event, Want};
use system_seats::Guard;

/// What a seat tries.
#[derive(Clone, Copy, Debug, PartialEq, Eq)]
pub enum Step {
    Share,
    Unshare,
    Yield,
    Retake,
    SeekLoad(Letter),
    SeekUnload,
    TakeLoad(Letter),
    TakeUnload,
    Release,
    Resume,
    Define(Letter),
    Reload(u32),
    Begin(Letter),
    End,
    RefuseTree,
    RefuseMemory,
}

/// What comes of it.
#[derive(Clone, Copy, Debug, PartialEq, Eq)]
pub enum Answer {
    Done,
    Refused(Guard),
    /// The caller's condition doesn't hold, so the event isn't tried.
    NoStep,
}

// Tries an event whose condition holds.
fn try_event(system: &mut System<Letters>, event: Event<Letters>) -> Result<Answer, AllocError>
    requires seat { event.seat < length system.old.state.seats.lock.rows }
    requires condition { Condition letters system.old.state event.seat (kept_of event.act) }
    requires known { IsKnown letters system.old.state event.act }
{
    system.reserve(1, 1)?;
    Ok(match system.apply(event) {
        Applied::Done => Answer::Done,
        Applied::Refused(guard, _) => Answer::Refused(guard),
    })
}

// Defines a letter that the sought one needs.
fn define(system: &mut System<Letters>, seat: u32, letter: Letter) -> Result<Answer, AllocError>
    requires { seat < length system.old.state.seats.lock.rows }
{
    let sought = match system.section_want(seat) {
        Some(Want::Load(sought)) => *sought,
        _ => return Ok(Answer::NoStep),
    };
    if !needs(sought, letter) {
        return Ok(Answer::NoStep);
    }
    let value = u64::from(*system.program()) + number(letter);
    let act = Act::Define(letter, value);
    try_event(system, Event { seat, act })
}

// Whether the table has a letter.
fn has_letter(system: &System<Letters>, letter: Letter) -> bool
    ensures { result ≡ is_in letters letter system.now.state.table }
{
    system.value(&letter).is_some()
}

// Ends the request that the seat runs, with its reply, if the table has the letter.
fn end(system: &mut System<Letters>, seat: u32) -> Result<Answer, AllocError>
    requires { seat < length system.old.state.seats.lock.rows }
{
    let request = match system.running_request(seat) {
        None => return end_nothing(system, seat),
        Some(request) => *request,
    };
    if !has_letter(system, request) {
        return Ok(Answer::NoStep);
    }
    let reply = u64::from(*system.program()) + number(request);
    let act = Act::End(reply);
    try_event(system, Event { seat, act })
}

// Ends no request.
#[tactic(auto, using(crate::proofs::Conditions::may_end_none))]
fn end_nothing(system: &mut System<Letters>, seat: u32) -> Result<Answer, AllocError>
    requires seat { seat < length system.old.state.seats.lock.rows }
    requires none { running_request system.old.state seat ≡ None }
{
    let act = Act::End(0);
    try_event(system, Event { seat, act })
}

// The act of a step that has no condition, or one that always holds here.
#[tactic(auto, using(crate::proofs::Needed::all_tasks))]
fn act_of(step: Step) -> Option<Act<Letters>>
    ensures { IfSome result (λ act. (state : State Letters Letter ℕ ℕ Letter ℕ ℕ) (seat : ℕ) →
        Condition letters state seat (kept_of act) × IsKnown letters state act) }
{
    Some(match step {
        Step::Share => Act::Share,
        Step::Unshare => Act::Unshare,
        Step::Yield => Act::Yield,
        Step::Retake => Act::Retake,
        Step::SeekLoad(letter) => Act::Seek(Want::Load(letter)),
        Step::SeekUnload => Act::Seek(Want::Unload),
        Step::TakeLoad(letter) => Act::Take(Want::Load(letter)),
        Step::TakeUnload => Act::Take(Want::Unload),
        Step::Release => Act::Release,
        Step::Resume => Act::Resume,
        Step::Reload(program) => Act::Reload(program),
        Step::Begin(letter) => Act::Begin(letter),
        Step::RefuseTree => Act::Refuse(Cause::Tree),
        Step::RefuseMemory => Act::Refuse(Cause::Memory),
        Step::Define(_) | Step::End => return None,
    })
}

/// Tries a step of a seat.
pub fn play(system: &mut System<Letters>, seat: u32, step: Step) -> Result<Answer, AllocError>
    requires { seat < length system.old.state.seats.lock.rows }
{
    match step {
        Step::Define(letter) => define(system, seat, letter),
        Step::End => end(system, seat),
        _ => match act_of(step) {
            None => Ok(Answer::NoStep),
            Some(act) => try_event(system, Event { seat, act }),
        },
    }
}
