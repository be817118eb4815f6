//! How a seat goes on, and how it stops.
ghost use Rattle.std.specs.Prelude.{◌≡◌};
ghost use Rattle.replay_finishes.specs.Pacing.{pace_of};

use replay_seats::Turn;

/// How a seat stops that makes steps.
#[derive(Clone, Copy, Debug, PartialEq, Eq)]
pub enum Finish {
    /// It has no request, or none any more.
    Over,
    /// It waits.
    Waits,
    /// A limit of requests, replies, generations or kept bytes is met.
    Limit,
}

/// How a seat goes on behind a step: it entered something, or not; or it stops.
#[derive(Clone, Copy, Debug, PartialEq, Eq)]
pub(crate) enum Pace {
    Entered,
    Quiet,
    Stops(Finish),
}

/// How a seat with a request goes on behind a step, by whether the history grew.
pub(crate) fn pace_of(turn: Turn, grew: bool) -> Pace
    ensures { result ≡ pace_of turn grew }
{
    match turn {
        Turn::Went => { if grew { Pace::Entered } else { Pace::Quiet } }
        Turn::Waits => Pace::Stops(Finish::Waits),
        Turn::Limit => Pace::Stops(Finish::Limit),
        Turn::Idle => Pace::Stops(Finish::Over),
    }
}
