//! Steps that read the files.
ghost use Rattle.std.specs.Prelude.{◌≡◌, ◌<◌, List, length, Ok, IfOk};
ghost use Rattle.outside.specs.declared.files.FileEntry.{FileEntry};
ghost use Rattle.seat_operations.specs.Coming.{Checks, Reloads};

use crate::came::{Came, CameOf};
use replay_files::Files;
use replay_matter::Replays;
use request_actor::{Answered, Op};
use seat_requests::{Entered, enter};
use std::alloc::{AllocError, Global};
use system_core::System;
use system_events::{Act, Cause};
use trace_lines::{Step, step_line};

/// Whether the files have the stamps in force. Files beyond a limit are a fault.
pub fn check<M: Replays>(
    alloc: Global,
    system: &System<M>,
    files: &mut Files,
    seat: u32,
) -> Result<CameOf<M>, AllocError>
    requires { seat < 64 }
    ensures check { IfOk result
        (Checks M.facts M.sources system.now.state system.now.state files.old.held seat) }
    ensures files { files.new ≡ files.old }
{
    let stamps = files.stamps()?;
    match M::limit(&stamps) {
        Some(fault) => {
            let line = step_line(alloc, seat, Step::CheckDiffers)?;
            Ok(Came::Answered(line, Answered::Fault(Cause::Program(fault))))
        }
        None => {
            if M::has_stamps(system.program(), &stamps) {
                let line = step_line(alloc, seat, Step::CheckSame)?;
                Ok(Came::Answered(line, Answered::Same))
            } else {
                let line = step_line(alloc, seat, Step::CheckDiffers)?;
                Ok(Came::Answered(line, Answered::Differs))
            }
        }
    }
}

/// Puts the program of the files in force, unless its stamps are, or the files have a fault.
pub fn reload<M: Replays>(
    alloc: Global,
    system: &mut System<M>,
    files: &mut Files,
    seat: u32,
) -> Result<CameOf<M>, AllocError>
    requires seat { seat < length system.old.state.seats.lock.rows }
    requires below { seat < 64 }
    ensures reload { IfOk result
        (Reloads M.facts M.sources system.old.state system.new.state files.old.held seat) }
    ensures files { files.new ≡ files.old }
{
    match M::build(alloc, files.snapshot()?)? {
        Err(fault) => {
            let line = step_line(alloc, seat, Step::ReloadNone)?;
            Ok(Came::Answered(line, Answered::Fault(Cause::Program(fault))))
        }
        Ok(program) => install(alloc, system, seat, program),
    }
}

// Puts a program in force, unless its stamps are.
fn install<M: Replays>(
    alloc: Global,
    system: &mut System<M>,
    seat: u32,
    program: M::Program,
) -> Result<CameOf<M>, AllocError>
    requires seat { seat < length system.old.state.seats.lock.rows }
    requires below { seat < 64 }
    requires program { M.facts.IsProgram program }
    ensures { IfOk result (λ came. (files : List FileEntry) → M.sources.Builds files (Ok program) →
        Reloads M.facts M.sources system.old.state system.new.state files seat came) }
{
    match enter(system, seat, Act::Reload(program))? {
        Entered::Done => {
            let line = step_line(alloc, seat, Step::Reload(system.generation()))?;
            Ok(Came::Answered(line, Answered::Done))
        }
        Entered::Waits(_) => {
            let line = step_line(alloc, seat, Step::ReloadNone)?;
            Ok(Came::Answered(line, Answered::Same))
        }
        Entered::Full => Ok(Came::Limit),
    }
}
