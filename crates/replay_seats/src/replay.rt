//! A replay and the steps of its seats.
ghost use Rattle.std.specs.Prelude.{◌≡◌, ◌<◌, ◌≤◌, None, length, replicate, IfOk, OnOk};
ghost use Rattle.std.specs.Prelude.{is_some};
ghost use Rattle.std.specs.List.{list_any};
ghost use Rattle.system_events.specs.Legal.{IsAfter};
ghost use Rattle.system_events.specs.Right.{IsRight};
ghost use Rattle.replay_files.specs.Holding.{Writes, removed};
ghost use Rattle.replay_seats.specs.Play.{play_of};
ghost use Rattle.replay_seats.specs.Situation.{AreSeated, at_first, seat_at};
ghost use Rattle.replay_seats.specs.Turning.{IsTurned, Opens};

use crate::seats::{open_seat, turn_seat};
use crate::turn::Told;
use replay_files::Files;
use replay_matter::Replays;
use seat_steps::RequestOf;
use std::alloc::{AllocError, Global};
use std::marker::Model;
use system_core::System;

/// A replay. Contracts see the state of its system, its files, and the open request of each seat.
#[derive(Drop)]
pub struct Replay<M: Replays> {
    system: System<M>,
    files: Files,
    seats: Vec<Option<RequestOf<M>>>,
}

impl<M: Replays> Model for Replay<M> {
    ghost use Rattle.by_need_loader.specs.Progress.{Progress};
    ghost use Rattle.system_events.specs.declared.event.Cause.{Cause};
    ghost use Rattle.system_events.specs.State.{State};
    ghost use Rattle.request_actor.specs.declared.actor.Stage.{Stage};
    ghost use Rattle.request_actor.specs.declared.op.Op.{Op};
    ghost use Rattle.seat_steps.specs.declared.next.Next.{Next};
    ghost use Rattle.seat_steps.specs.declared.next.OpenRequest.{OpenRequest};
    ghost use Rattle.replay_seats.specs.Situation.{Replaying};

    ghost Value = { Replaying (State M M.Task M.Value M.Program M.Request M.Reply M.Fault) (OpenRequest
        (Stage M.Request M.Task M.Waiting (Cause M M.Task M.Value M.Program M.Request M.Reply M.Fault))
        (Next (Op M M.Task M.Value M.Program M.Request M.Reply M.Fault) M.Task
        (Progress M.Task M.Theory.Running M.Theory.Waiting M.Theory.Key) M.Error)) };

    ghost view = { λ r. record { state = r.system.state; files = r.files; seats = r.seats.items } };
}

// 64 seats without requests.
fn empty_seats<M: Replays>(alloc: Global) -> Result<Vec<Option<RequestOf<M>>>, AllocError>
    ensures { IfOk result (λ seats. seats.items ≡ replicate 64 None) }
{
    let mut seats = Vec::new(alloc);
    'seats: for _ in 0..64u32 {
        seats.push(None)?;
    }
    Ok(seats)
}

// The history of a system of 64 seats is legal and right.
fn tell_laws<M: Replays>(system: &System<M>)
    requires { length system.now.state.seats.lock.rows ≡ 64 }
    ensures legal { IsAfter M.facts 64 system.now.state }
    ensures right { IsRight M.facts system.now.state.history }
{
    system.tells_legal();
    system.tells_laws();
}

fn is_any_some<B>(seats: &[Option<B>]) -> bool
    ensures { result ≡ list_any is_some seats.now }
{
    'seats: for seat in seats {
        if seat.is_some() {
            return true;
        }
    }
    false
}

impl<M: Replays> Replay<M> {
    /// A replay without files and requests.
    pub fn new(alloc: Global) -> Result<Replay<M>, AllocError>
        ensures begins { IfOk result (λ replay. replay ≡ at_first (play_of M.facts M.talks M.words M.sources
            M.Theory.rules M.Theory.runs M.theory_of)) }
        ensures seated { IfOk result (λ replay. AreSeated (play_of M.facts M.talks M.words M.sources
            M.Theory.rules M.Theory.runs M.theory_of) replay.state replay.seats) }
    {
        let system = System::new(alloc, 64)?;
        let seats = empty_seats::<M>(alloc)?;
        Ok(Replay {
            system,
            files: Files::new(alloc),
            seats,
        })
    }

    /// How many entries the history has.
    pub fn length(&self) -> u64
        ensures { result ≡ length self.now.state.history }
    {
        self.system.length()
    }

    /// The number of the generation in force.
    pub fn generation(&self) -> u32
        ensures { result ≡ self.now.state.counts.generation }
    {
        self.system.generation()
    }

    /// Whether a seat has an open request.
    pub fn is_open(&self, seat: u32) -> bool
        requires { seat < length self.now.seats }
        ensures { result ≡ is_some (seat_at self.now.seats seat) }
    {
        self.seats[seat as usize].is_some()
    }

    /// Whether some seat has an open request.
    pub fn is_any_open(&self) -> bool
        ensures { result ≡ list_any is_some self.now.seats }
    {
        is_any_some(self.seats.as_slice())
    }

    /// The history is legal and right.
    pub fn tells_laws(&self)
        requires { length self.now.state.seats.lock.rows ≡ 64 }
        ensures legal { IsAfter M.facts 64 self.now.state }
        ensures right { IsRight M.facts self.now.state.history }
    {
        tell_laws(&self.system);
    }

    /// Writes a file.
    pub fn write(&mut self, path: &str, bytes: &[u8]) -> Result<(), AllocError>
        ensures files { OnOk result (Writes path.now bytes.now self.old.files self.new.files) }
        ensures state { self.new.state ≡ self.old.state }
        ensures seats { self.new.seats ≡ self.old.seats }
    {
        self.files.write(path, bytes)
    }

    /// Removes a file.
    pub fn remove(&mut self, path: &str)
        ensures { self.new ≡ record self.old { files = removed path.now self.old.files } }
    {
        self.files.remove(path)
    }

    /// Gives a seat without a request that for a target.
    pub fn open(&mut self, alloc: Global, seat: u32, target: &[u8]) -> Result<(), AllocError>
        requires seated { AreSeated (play_of M.facts M.talks M.words M.sources
            M.Theory.rules M.Theory.runs M.theory_of) self.old.state self.old.seats }
        requires below { seat < 64 }
        requires size { length target.now ≤ 2048 }
        ensures opens { IfOk result (λ _. Opens (play_of M.facts M.talks M.words M.sources M.Theory.rules
            M.Theory.runs M.theory_of) target.now self.old.state self.old.seats self.new.seats seat) }
        ensures state { self.new.state ≡ self.old.state }
        ensures files { self.new.files ≡ self.old.files }
    {
        open_seat(alloc, &self.system, &mut self.seats, seat, target)
    }

    /// Makes a step of a seat.
    pub fn turn(&mut self, alloc: Global, seat: u32) -> Result<Told, AllocError>
        requires seated { AreSeated (play_of M.facts M.talks M.words M.sources
            M.Theory.rules M.Theory.runs M.theory_of) self.old.state self.old.seats }
        requires below { seat < 64 }
        ensures { IfOk result (λ told. IsTurned (play_of M.facts M.talks M.words M.sources
            M.Theory.rules M.Theory.runs M.theory_of) self.old self.new seat told.lines.items told.turn) }
    {
        turn_seat(
            alloc,
            &mut self.system,
            &mut self.files,
            &mut self.seats,
            seat,
        )
    }
}
