//! Finishing the request of a seat.
ghost use Rattle.std.specs.Prelude.{◌≡◌, ◌<◌, ◌++◌, List, ℕ, true, length, is_some, nat_lt, IfOk, OnErr};
ghost use Rattle.replay_seats.specs.Play.{play_of};
ghost use Rattle.replay_seats.specs.Situation.{AreSeated, seat_at};
ghost use Rattle.replay_finishes.specs.Finishing.{Finishes, Began};
ghost use Rattle.replay_finishes.specs.Pacing.{Paces, Pauses};

use crate::stops::{Finish, Pace, pace_of};
use crate::telling::tell_turn;
use lists::Text;
use replay_matter::Replays;
use replay_seats::Replay;
use std::alloc::{AllocError, Global};

// The seats of a replay are 64.
fn seats_fit<M: Replays>(_replay: &Replay<M>, _seat: u32)
    requires seated { AreSeated (play_of M.facts M.talks M.words M.sources
        M.Theory.rules M.Theory.runs M.theory_of) _replay.now.state _replay.now.seats }
    requires below { _seat < 64 }
    ensures { _seat < length _replay.now.seats }
{}

// Whether a seat has an open request.
fn has_request<M: Replays>(replay: &Replay<M>, seat: u32) -> bool
    requires seated { AreSeated (play_of M.facts M.talks M.words M.sources
        M.Theory.rules M.Theory.runs M.theory_of) replay.now.state replay.now.seats }
    requires below { seat < 64 }
    ensures { result ≡ is_some (seat_at replay.now.seats seat) }
{
    seats_fit(replay, seat);
    replay.is_open(seat)
}

fn is_less(before: u64, after: u64) -> bool
    ensures { result ≡ nat_lt before after }
{
    before < after
}

// Makes a step of a seat with a request, and adds the lines that tell it.
fn go_once<M: Replays>(
    alloc: Global,
    replay: &mut Replay<M>,
    seat: u32,
    lines: &mut Vec<Text>,
) -> Result<Pace, AllocError>
    requires seated { AreSeated (play_of M.facts M.talks M.words M.sources
        M.Theory.rules M.Theory.runs M.theory_of) replay.old.state replay.old.seats }
    requires below { seat < 64 }
    requires has { is_some (seat_at replay.old.seats seat) ≡ true }
    ensures paces { IfOk result (λ pace. (told : List (List ℕ)) × Paces (play_of M.facts M.talks M.words M.sources
        M.Theory.rules M.Theory.runs M.theory_of) seat replay.old replay.new told pace
        × (lines.new.items ≡ lines.old.items ++ told)) }
    ensures seated { IfOk result (λ _. AreSeated (play_of M.facts M.talks M.words M.sources
        M.Theory.rules M.Theory.runs M.theory_of) replay.new.state replay.new.seats) }
    ensures err { OnErr result (lines.new.items ≡ lines.old.items) }
{
    let before = replay.length();
    let turn = tell_turn(alloc, replay, seat, lines)?;
    let grew = is_less(before, replay.length());
    Ok(pace_of(turn, grew))
}

// Makes steps of a seat until one of them enters something, or the seat stops.
fn go_quietly<M: Replays>(
    alloc: Global,
    replay: &mut Replay<M>,
    seat: u32,
    lines: &mut Vec<Text>,
) -> Result<Pace, AllocError>
    requires seated { AreSeated (play_of M.facts M.talks M.words M.sources
        M.Theory.rules M.Theory.runs M.theory_of) replay.old.state replay.old.seats }
    requires below { seat < 64 }
    ensures pauses { IfOk result (λ pace. (told : List (List ℕ)) × Pauses (play_of M.facts M.talks M.words M.sources
        M.Theory.rules M.Theory.runs M.theory_of) seat replay.old replay.new told pace
        × (lines.new.items ≡ lines.old.items ++ told)) }
    ensures seated { IfOk result (λ _. AreSeated (play_of M.facts M.talks M.words M.sources
        M.Theory.rules M.Theory.runs M.theory_of) replay.new.state replay.new.seats) }
    ensures err { OnErr result ((told : List (List ℕ)) × Began (play_of M.facts M.talks M.words M.sources
        M.Theory.rules M.Theory.runs M.theory_of) seat replay.old told
        × (lines.new.items ≡ lines.old.items ++ told)) }
{
    'steps: while has_request(replay, seat) {
        let pace = go_once(alloc, replay, seat, lines)?;
        match pace {
            Pace::Quiet => {}
            Pace::Entered => return Ok(Pace::Entered),
            Pace::Stops(how) => return Ok(Pace::Stops(how)),
        }
    }
    Ok(Pace::Stops(Finish::Over))
}

/// Makes steps of a seat until it has no request, or a step waits or meets a limit. It adds the lines that tell them;
/// with want of memory those of the steps that were made.
pub fn finish<M: Replays>(
    alloc: Global,
    replay: &mut Replay<M>,
    seat: u32,
    lines: &mut Vec<Text>,
) -> Result<Finish, AllocError>
    requires seated { AreSeated (play_of M.facts M.talks M.words M.sources
        M.Theory.rules M.Theory.runs M.theory_of) replay.old.state replay.old.seats }
    requires below { seat < 64 }
    ensures finishes { IfOk result (λ how. (told : List (List ℕ)) × Finishes (play_of M.facts M.talks M.words M.sources
        M.Theory.rules M.Theory.runs M.theory_of) seat replay.old replay.new told how
        × (lines.new.items ≡ lines.old.items ++ told)) }
    ensures seated { IfOk result (λ _. AreSeated (play_of M.facts M.talks M.words M.sources
        M.Theory.rules M.Theory.runs M.theory_of) replay.new.state replay.new.seats) }
    ensures err { OnErr result ((told : List (List ℕ)) × Began (play_of M.facts M.talks M.words M.sources
        M.Theory.rules M.Theory.runs M.theory_of) seat replay.old told
        × (lines.new.items ≡ lines.old.items ++ told)) }
{
    // (each turn of this loop enters something, and the length of a history is a number of 64 bits)
    'entries: loop {
        let _length = replay.length();
        let pace = go_quietly(alloc, replay, seat, lines)?;
        match pace {
            Pace::Entered => {}
            Pace::Quiet => unreachable!(),
            Pace::Stops(how) => return Ok(how),
        }
    }
}
