//! A step that is told behind others.
ghost use Rattle.std.specs.Prelude.{◌≡◌, ◌<◌, ◌++◌, List, ℕ, IfOk, OnErr};
ghost use Rattle.replay_seats.specs.Play.{play_of};
ghost use Rattle.replay_seats.specs.Situation.{AreSeated};
ghost use Rattle.replay_seats.specs.Turning.{IsTurned};

use lists::Text;
use replay_matter::Replays;
use replay_seats::{Replay, Turn};
use std::alloc::{AllocError, Global};

/// Makes a step of a seat, and adds the lines that tell it. Want of memory adds none.
pub fn tell_turn<M: Replays>(
    alloc: Global,
    replay: &mut Replay<M>,
    seat: u32,
    lines: &mut Vec<Text>,
) -> Result<Turn, AllocError>
    requires seated { AreSeated (play_of M.facts M.talks M.words M.sources
        M.Theory.rules M.Theory.runs M.theory_of) replay.old.state replay.old.seats }
    requires below { seat < 64 }
    ensures turned { IfOk result (λ turn. (told : List (List ℕ)) × IsTurned (play_of M.facts M.talks M.words M.sources
        M.Theory.rules M.Theory.runs M.theory_of) replay.old replay.new seat told turn
        × (lines.new.items ≡ lines.old.items ++ told)) }
    ensures err { OnErr result (lines.new.items ≡ lines.old.items) }
{
    let mut told = replay.turn(alloc, seat)?;
    lines.append(&mut told.lines)?;
    Ok(told.turn)
}
