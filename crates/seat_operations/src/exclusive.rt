//! Steps into an exclusive section and out of it.
ghost use Rattle.std.specs.Prelude.{◌≡◌, ◌<◌, length, IfOk};
ghost use Rattle.system_seats.specs.Seats.{is_releasing, row};
ghost use Rattle.system_events.specs.declared.event.Kept.{Kept};
ghost use Rattle.system_events.specs.Steps.{IsTask};
ghost use Rattle.trace_lines.specs.Steps.{seat_line};
ghost use Rattle.seat_operations.specs.Coming.{verdict_of, take_text, seek_text, Takes, Releases, waits_line};
ghost use Rattle.seat_requests.specs.Trying.{IsRefused};

use crate::came::{Came, CameOf, Taking, Tried};
use crate::entering::act;
use lists::Text;
use replay_matter::Replays;
use request_actor::{Answered, Op};
use share_lock::Phase;
use std::alloc::{AllocError, Global};
use system_core::System;
use system_events::{Act, Matter, Want};
use trace_lines::{Step, step_line};

fn copy_want<M: Replays>(want: &Want<M>) -> Result<Want<M>, AllocError>
    ensures { IfOk result (λ copied. copied ≡ want.now) }
{
    match want {
        Want::Load(task) => Ok(Want::Load(M::copy_task(task)?)),
        Want::Unload => Ok(Want::Unload),
    }
}

fn take_line<M: Replays>(alloc: Global, seat: u32, want: &Want<M>) -> Result<Text, AllocError>
    requires { seat < 64 }
    ensures { IfOk result (λ line. line ≡ seat_line seat (take_text M.words want.now)) }
{
    match want {
        Want::Load(task) => {
            let name = M::task_name(alloc, task)?;
            step_line(alloc, seat, Step::TakeLoad(name.as_bytes()))
        }
        Want::Unload => step_line(alloc, seat, Step::TakeUnload),
    }
}

fn seek_line<M: Replays>(alloc: Global, seat: u32, want: &Want<M>) -> Result<Text, AllocError>
    requires { seat < 64 }
    ensures { IfOk result (λ line. line ≡ seat_line seat (seek_text M.words want.now)) }
{
    match want {
        Want::Load(task) => {
            let name = M::task_name(alloc, task)?;
            step_line(alloc, seat, Step::SeekLoad(name.as_bytes()))
        }
        Want::Unload => step_line(alloc, seat, Step::SeekUnload),
    }
}

/// Makes a seat exclusive for a want; where that is busy it seeks to be, or waits.
pub fn take<M: Replays>(
    alloc: Global,
    system: &mut System<M>,
    seat: u32,
    want: &Want<M>,
) -> Result<Taking, AllocError>
    requires seat { seat < length system.old.state.seats.lock.rows }
    requires below { seat < 64 }
    requires task { IsTask M.facts system.old.state want.now }
    ensures { IfOk result (Takes M.facts M.words system.old.state system.new.state seat want.now) }
{
    let line = take_line(alloc, seat, want)?;
    match act(alloc, system, seat, Act::Take(copy_want(want)?), line)? {
        Tried::Done(line) => Ok(Taking::Taken(line)),
        Tried::Waits(line, _) => seek(alloc, system, seat, want, line),
        Tried::Full => Ok(Taking::Full),
    }
}

// A seat whose Take was refused seeks, or waits, which this line tells.
fn seek<M: Replays>(
    alloc: Global,
    system: &mut System<M>,
    seat: u32,
    want: &Want<M>,
    waits: Text,
) -> Result<Taking, AllocError>
    requires seat { seat < length system.old.state.seats.lock.rows }
    requires below { seat < 64 }
    requires task { IsTask M.facts system.old.state want.now }
    requires refused { verdict_of M.facts system.old.state seat (Kept.Take want.now) ≡ IsRefused }
    requires told { waits ≡ waits_line seat }
    ensures { IfOk result (Takes M.facts M.words system.old.state system.new.state seat want.now) }
{
    let line = seek_line(alloc, seat, want)?;
    match act(alloc, system, seat, Act::Seek(copy_want(want)?), line)? {
        Tried::Done(line) => Ok(Taking::Sought(line)),
        Tried::Waits(_, _) => Ok(Taking::Waits(waits)),
        Tried::Full => Ok(Taking::Waits(waits)),
    }
}

fn is_releasing(phase: Phase) -> bool
    ensures { result ≡ is_releasing phase }
{
    match phase {
        Phase::Calm => false,
        Phase::Seeking(_) => false,
        Phase::Releasing(_) => true,
    }
}

/// Whether a seat waits behind its release.
pub fn waits_behind_release<M: Matter>(system: &System<M>, seat: u32) -> bool
    requires { seat < length system.now.state.seats.lock.rows }
    ensures { result ≡ is_releasing (row system.now.state.seats seat).phase }
{
    is_releasing(system.row(seat).lock.phase)
}

/// A seat is exclusive no more.
pub fn release<M: Replays>(
    alloc: Global,
    system: &mut System<M>,
    seat: u32,
) -> Result<CameOf<M>, AllocError>
    requires seat { seat < length system.old.state.seats.lock.rows }
    requires below { seat < 64 }
    ensures { IfOk result (Releases M.facts system.old.state system.new.state seat) }
{
    let line = step_line(alloc, seat, Step::Release)?;
    match act(alloc, system, seat, Act::Release, line)? {
        Tried::Done(line) => {
            if waits_behind_release(system, seat) {
                let line = step_line(alloc, seat, Step::ReleaseWaits)?;
                Ok(Came::Answered(line, Answered::Waits))
            } else {
                Ok(Came::Answered(line, Answered::Done))
            }
        }
        Tried::Waits(line, _) => Ok(Came::Waits(line, Op::Release)),
        Tried::Full => Ok(Came::Limit),
    }
}
