//! The steps of seats over their system and files.
ghost use Rattle.std.specs.Prelude.{◌≡◌, ◌<◌, ◌≤◌, ◌∷◌, [], None, length, slice_set, IfOk};
ghost use Rattle.seat_steps.specs.Theories.{theories_by};
ghost use Rattle.seat_steps.specs.Standing.{IsOpen};
ghost use Rattle.replay_seats.specs.declared.turn.Turn.{Turn};
ghost use Rattle.replay_seats.specs.Play.{play_of};
ghost use Rattle.replay_seats.specs.Situation.{AreSeated, seat_at};
ghost use Rattle.replay_seats.specs.Turning.{IsMade, IsOpened, IsTurned, Opens, idle_line};

use crate::outcome::{Outcome, idle_lines, outcome_of};
use crate::turn::{Told, Turn};
use replay_files::Files;
use replay_matter::Replays;
use seat_steps::{RequestOf, start, step};
use std::alloc::{AllocError, Global};
use std::mem;
use system_core::System;

// Takes the request of a seat out.
fn take_out<B: Drop>(seats: &mut Vec<Option<B>>, seat: u32) -> Option<B>
    requires { seat < length seats.old.items }
    ensures taken { result ≡ seat_at seats.old.items seat }
    ensures rest { seats.new.items ≡ slice_set seats.old.items seat None }
{
    mem::replace(&mut seats[seat as usize], None)
}

// Gives a seat this request, or none.
fn put_in<B: Drop>(seats: &mut Vec<Option<B>>, seat: u32, request: Option<B>)
    requires { seat < length seats.old.items }
    ensures { seats.new.items ≡ slice_set seats.old.items seat request }
{
    seats[seat as usize] = request;
}

// The request of a target, which may begin.
fn request_of<M: Replays>(alloc: Global, target: &[u8]) -> Result<M::Request, AllocError>
    requires { length target.now ≤ 2048 }
    ensures request { IfOk result (λ request. request ≡ M.words.request_of target.now) }
    ensures begins { IfOk result M.facts.IsRequest }
{
    M::request_of(alloc, target)
}

// Opens the request of a target.
fn open_request<M: Replays>(
    alloc: Global,
    system: &System<M>,
    seat: u32,
    target: &[u8],
) -> Result<RequestOf<M>, AllocError>
    requires { length target.now ≤ 2048 }
    ensures opened { IfOk result (IsOpened (play_of M.facts M.talks M.words M.sources
        M.Theory.rules M.Theory.runs M.theory_of) target.now) }
    ensures stands { IfOk result (IsOpen M.facts M.talks (theories_by M.Theory.rules M.Theory.runs M.theory_of)
        system.now.state seat) }
{
    let request = request_of::<M>(alloc, target)?;
    start(system, seat, request)
}

/// Gives a seat the request of a target.
pub(crate) fn open_seat<M: Replays>(
    alloc: Global,
    system: &System<M>,
    seats: &mut Vec<Option<RequestOf<M>>>,
    seat: u32,
    target: &[u8],
) -> Result<(), AllocError>
    requires seated { AreSeated (play_of M.facts M.talks M.words M.sources
        M.Theory.rules M.Theory.runs M.theory_of) system.now.state seats.old.items }
    requires below { seat < 64 }
    requires size { length target.now ≤ 2048 }
    ensures { IfOk result (λ _. Opens (play_of M.facts M.talks M.words M.sources M.Theory.rules
        M.Theory.runs M.theory_of) target.now system.now.state seats.old.items seats.new.items seat) }
{
    let opened = open_request(alloc, system, seat, target)?;
    put_in(seats, seat, Some(opened));
    Ok(())
}

// What the step of a seat without a request tells.
fn idle(alloc: Global, seat: u32) -> Result<Told, AllocError>
    requires { seat < 64 }
    ensures { IfOk result (λ told. (told.lines.items ≡ idle_line seat ∷ []) × (told.turn ≡ Turn.Idle)) }
{
    Ok(Told {
        lines: idle_lines(alloc, seat)?,
        turn: Turn::Idle,
    })
}

// Makes a step of a seat whose request was taken out.
fn make_step<M: Replays>(
    alloc: Global,
    system: &mut System<M>,
    files: &mut Files,
    seats: &mut Vec<Option<RequestOf<M>>>,
    seat: u32,
    request: RequestOf<M>,
) -> Result<Told, AllocError>
    requires seated { AreSeated (play_of M.facts M.talks M.words M.sources
        M.Theory.rules M.Theory.runs M.theory_of) system.old.state seats.old.items }
    requires below { seat < 64 }
    requires stands { IsOpen M.facts M.talks (theories_by M.Theory.rules M.Theory.runs M.theory_of)
        system.old.state seat request }
    ensures { IfOk result (λ told. IsMade (play_of M.facts M.talks M.words M.sources
        M.Theory.rules M.Theory.runs M.theory_of) request
        (record { state = system.old.state; files = files.old; seats = seats.old.items })
        (record { state = system.new.state; files = files.new; seats = seats.new.items }) seat
        told.lines.items told.turn) }
{
    system.tells_laws();
    let stepped = step(alloc, system, files, seat, request)?;
    let after = outcome_of(alloc, stepped)?;
    let Outcome {
        lines,
        turn,
        request: next,
    } = after;
    put_in(seats, seat, next);
    Ok(Told { lines, turn })
}

/// Makes a step of a seat.
pub(crate) fn turn_seat<M: Replays>(
    alloc: Global,
    system: &mut System<M>,
    files: &mut Files,
    seats: &mut Vec<Option<RequestOf<M>>>,
    seat: u32,
) -> Result<Told, AllocError>
    requires seated { AreSeated (play_of M.facts M.talks M.words M.sources
        M.Theory.rules M.Theory.runs M.theory_of) system.old.state seats.old.items }
    requires below { seat < 64 }
    ensures { IfOk result (λ told. IsTurned (play_of M.facts M.talks M.words M.sources
        M.Theory.rules M.Theory.runs M.theory_of)
        (record { state = system.old.state; files = files.old; seats = seats.old.items })
        (record { state = system.new.state; files = files.new; seats = seats.new.items }) seat
        told.lines.items told.turn) }
{
    match take_out(seats, seat) {
        None => idle(alloc, seat),
        Some(request) => make_step(alloc, system, files, seats, seat, request),
    }
}
