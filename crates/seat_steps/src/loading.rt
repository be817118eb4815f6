//! Steps into a load section, in it, and out of it.
ghost use Rattle.std.specs.Prelude.{◌≡◌, ◌<◌, ◌++◌, true, length, map, IfOk, codes};
ghost use Rattle.system_seats.specs.Seats.{is_owner, is_releasing, row};
ghost use Rattle.system_events.specs.declared.event.Want.{Want};
ghost use Rattle.request_actor.specs.declared.op.Op.{Op};
ghost use Rattle.seat_requests.specs.Standing.{IsStanding};
ghost use Rattle.seat_operations.specs.Readying.{IsMoved};
ghost use Rattle.trace_lines.specs.Steps.{seat_line, log_line};
ghost use Rattle.seat_steps.specs.Theories.{theories_by};
ghost use Rattle.seat_steps.specs.declared.next.Next.{Next};
ghost use Rattle.seat_steps.specs.Stepping.{ClosedAt, Closes, GoesOnLoading, OpensAt, OpensSection, ResumesAt};
ghost use Rattle.seat_steps.specs.Stepping.{ResumesBehind, define_lines, load_answer};
ghost use Rattle.seat_steps.specs.Standing.{GoesOnAt, StaysOpen};

use crate::answering::{answer, one_line};
use crate::next::{Next, OpenRequest, Stepped, SteppedOf};
use by_need_loader::Loader;
use lists::{Listed, Text};
use load_sections::{LoadSection, Made};
use replay_matter::Replays;
use request_actor::{Actor, Answered};
use request_loads::Loads;
use seat_operations::{AnswerOf, Taking, Tried, act, take, waits_behind_release};
use std::alloc::{AllocError, Global};
use system_core::System;
use system_events::{Act, Matter, Want};
use trace_lines::{Step, log_line, step_line};

// The task of a load.
fn loaded_task<M: Matter>(want: Want<M>) -> M::Task
    requires { (task : M.Task) × (want ≡ Want.Load task) }
    ensures { want ≡ Want.Load result }
{
    match want {
        Want::Load(task) => task,
        Want::Unload => unreachable!(),
    }
}

// Adds a line for each text.
fn push_logs(alloc: Global, lines: &mut Listed<Text>, logs: &Listed<Text>) -> Result<(), AllocError>
    ensures { IfOk result (λ _. lines.new ≡ lines.old ++ map log_line logs.now) }
{
    'logs: for text in logs.as_slice() {
        lines.push(log_line(alloc, text.as_bytes())?)?;
    }
    Ok(())
}

// The lines of a define.
fn define_lines<M: Replays>(
    alloc: Global,
    program: &M::Program,
    seat: u32,
    task: &M::Task,
) -> Result<Listed<Text>, AllocError>
    requires { seat < 64 }
    ensures { IfOk result (λ lines. lines ≡ define_lines M.words program.now seat task.now) }
{
    let name = M::task_name(alloc, task)?;
    let mut lines = one_line(
        alloc,
        step_line(alloc, seat, Step::Define(name.as_bytes()))?,
    )?;
    let logs = M::logs(alloc, program, task)?;
    push_logs(alloc, &mut lines, &logs)?;
    Ok(lines)
}

// The answer of a load that failed for this reason, or was done.
fn load_answer<M: Replays>(ended: Option<M::Error>) -> AnswerOf<M>
    ensures { result ≡ load_answer ended }
{
    match ended {
        None => Answered::Done,
        Some(error) => Answered::Failed(error),
    }
}

// What comes of the Take that opens the load section of a task.
fn opened<M: Replays>(
    alloc: Global,
    actor: Actor<M>,
    task: M::Task,
    taken: Taking,
) -> Result<SteppedOf<M>, AllocError>
    ensures { IfOk result (OpensAt actor task taken) }
{
    match taken {
        Taking::Taken(line) => {
            let lines = one_line(alloc, line)?;
            let next = Next::Defines(Loader::<M::Theory>::begin(alloc, task));
            Ok(Stepped::Went(lines, Some(OpenRequest { actor, next })))
        }
        Taking::Sought(line) => {
            let lines = one_line(alloc, line)?;
            let next = Next::Opens(task);
            Ok(Stepped::Went(lines, Some(OpenRequest { actor, next })))
        }
        Taking::Waits(line) => {
            let next = Next::Opens(task);
            Ok(Stepped::Waits(line, OpenRequest { actor, next }))
        }
        Taking::Full => Ok(Stepped::Limit),
    }
}

/// Opens the load section of a task.
pub(crate) fn open_section<M: Replays>(
    alloc: Global,
    system: &mut System<M>,
    seat: u32,
    actor: Actor<M>,
    task: M::Task,
) -> Result<SteppedOf<M>, AllocError>
    requires seat { seat < length system.old.state.seats.lock.rows }
    requires below { seat < 64 }
    requires standing { IsStanding M.facts M.talks system.old.state seat actor (Op.Load task) }
    ensures opens { IfOk result
        (OpensSection M.facts M.words system.old.state system.new.state seat actor task) }
    ensures open { IfOk result (StaysOpen M.facts M.talks
        (theories_by M.Theory.rules M.Theory.runs M.theory_of) system.new.state seat) }
    ensures moved { IfOk result (λ _. IsMoved M.facts system.old.state system.new.state seat) }
{
    system.tells_laws();
    system.tells_legal();
    let want = Want::Load(task);
    let taken = take(alloc, system, seat, &want)?;
    opened(alloc, actor, loaded_task(want), taken)
}

// What comes of the Release that closes a load section, which this line tells where the seat needn't wait behind it.
fn closed<M: Replays>(
    alloc: Global,
    system: &System<M>,
    seat: u32,
    actor: Actor<M>,
    ended: Option<M::Error>,
    line: Text,
) -> Result<SteppedOf<M>, AllocError>
    requires seat { seat < length system.now.state.seats.lock.rows }
    requires below { seat < 64 }
    requires line { line ≡ seat_line seat (codes "release") }
    requires going { GoesOnAt M.facts M.talks (theories_by M.Theory.rules M.Theory.runs M.theory_of)
        system.now.state seat actor (Next.Resumes ended) }
    ensures closes { IfOk result (ClosedAt M.facts M.talks system.now.state.counts.program seat actor ended
        (is_releasing (row system.now.state.seats seat).phase)) }
    ensures open { IfOk result (StaysOpen M.facts M.talks
        (theories_by M.Theory.rules M.Theory.runs M.theory_of) system.now.state seat) }
{
    if waits_behind_release(system, seat) {
        let line = step_line(alloc, seat, Step::ReleaseWaits)?;
        let lines = one_line(alloc, line)?;
        let next = Next::Resumes(ended);
        return Ok(Stepped::Went(lines, Some(OpenRequest { actor, next })));
    }
    let lines = one_line(alloc, line)?;
    answer(system, seat, actor, load_answer::<M>(ended), lines)
}

// Closes a load section, whose load failed for this reason, or was done.
fn close<M: Replays>(
    alloc: Global,
    system: &mut System<M>,
    seat: u32,
    actor: Actor<M>,
    ended: Option<M::Error>,
) -> Result<SteppedOf<M>, AllocError>
    requires seat { seat < length system.old.state.seats.lock.rows }
    requires below { seat < 64 }
    requires exclusive { is_owner system.old.state.seats seat ≡ true }
    requires going { GoesOnAt M.facts M.talks (theories_by M.Theory.rules M.Theory.runs M.theory_of)
        system.old.state seat actor (Next.Resumes ended) }
    ensures closes { IfOk result
        (Closes M.facts M.talks system.old.state system.new.state seat actor ended) }
    ensures open { IfOk result (StaysOpen M.facts M.talks
        (theories_by M.Theory.rules M.Theory.runs M.theory_of) system.new.state seat) }
{
    system.tells_laws();
    let line = step_line(alloc, seat, Step::Release)?;
    match act(alloc, system, seat, Act::Release, line)? {
        Tried::Done(line) => closed(alloc, system, seat, actor, ended, line),
        Tried::Waits(_, _) => unreachable!(),
        Tried::Full => unreachable!(),
    }
}

/// Goes on in a load section: by the next define of its load, or by its close.
pub(crate) fn go_on_loading<M: Replays>(
    alloc: Global,
    system: &mut System<M>,
    seat: u32,
    actor: Actor<M>,
    loader: Loader<M::Theory>,
) -> Result<SteppedOf<M>, AllocError>
    requires seat { seat < length system.old.state.seats.lock.rows }
    requires below { seat < 64 }
    requires going { GoesOnAt M.facts M.talks (theories_by M.Theory.rules M.Theory.runs M.theory_of)
        system.old.state seat actor (Next.Defines loader) }
    ensures goes { IfOk result (GoesOnLoading M.facts M.talks M.words
        (theories_by M.Theory.rules M.Theory.runs M.theory_of) system.old.state system.new.state seat actor loader) }
    ensures open { IfOk result (StaysOpen M.facts M.talks
        (theories_by M.Theory.rules M.Theory.runs M.theory_of) system.new.state seat) }
    ensures moved { IfOk result (λ _. IsMoved M.facts system.old.state system.new.state seat) }
{
    system.tells_laws();
    let program = M::share(system.program());
    let mut section = LoadSection { seat, loader };
    match section.define_next(system, M::theory(&program))? {
        Made::Defined(task) => {
            let lines = define_lines::<M>(alloc, &program, seat, &task)?;
            let LoadSection { seat: _, loader } = section;
            let next = Next::Defines(loader);
            Ok(Stepped::Went(lines, Some(OpenRequest { actor, next })))
        }
        Made::Loaded => close(alloc, system, seat, actor, None),
        Made::Failed(failure) => {
            let error = M::unknown(alloc, failure)?;
            close(alloc, system, seat, actor, Some(error))
        }
    }
}

// What comes of the Resume behind a load section.
fn resumed<M: Replays>(
    alloc: Global,
    system: &System<M>,
    seat: u32,
    actor: Actor<M>,
    ended: Option<M::Error>,
    tried: Tried<M>,
) -> Result<SteppedOf<M>, AllocError>
    requires below { seat < 64 }
    requires going { GoesOnAt M.facts M.talks (theories_by M.Theory.rules M.Theory.runs M.theory_of)
        system.now.state seat actor (Next.Resumes ended) }
    ensures resumes { IfOk result
        (ResumesAt M.facts M.talks system.now.state.counts.program actor ended tried) }
    ensures open { IfOk result (StaysOpen M.facts M.talks
        (theories_by M.Theory.rules M.Theory.runs M.theory_of) system.now.state seat) }
{
    match tried {
        Tried::Done(line) => {
            let lines = one_line(alloc, line)?;
            answer(system, seat, actor, load_answer::<M>(ended), lines)
        }
        Tried::Waits(line, _) => {
            let next = Next::Resumes(ended);
            Ok(Stepped::Waits(line, OpenRequest { actor, next }))
        }
        Tried::Full => Ok(Stepped::Limit),
    }
}

/// Resumes behind a load section, whose load failed for this reason, or was done.
pub(crate) fn resume<M: Replays>(
    alloc: Global,
    system: &mut System<M>,
    seat: u32,
    actor: Actor<M>,
    ended: Option<M::Error>,
) -> Result<SteppedOf<M>, AllocError>
    requires seat { seat < length system.old.state.seats.lock.rows }
    requires below { seat < 64 }
    requires going { GoesOnAt M.facts M.talks (theories_by M.Theory.rules M.Theory.runs M.theory_of)
        system.old.state seat actor (Next.Resumes ended) }
    ensures resumes { IfOk result
        (ResumesBehind M.facts M.talks system.old.state system.new.state seat actor ended) }
    ensures open { IfOk result (StaysOpen M.facts M.talks
        (theories_by M.Theory.rules M.Theory.runs M.theory_of) system.new.state seat) }
    ensures moved { IfOk result (λ _. IsMoved M.facts system.old.state system.new.state seat) }
{
    system.tells_laws();
    let line = step_line(alloc, seat, Step::Resume)?;
    let tried = act(alloc, system, seat, Act::Resume, line)?;
    resumed(alloc, system, seat, actor, ended, tried)
}
