//! What stands behind a step.
ghost use Rattle.std.specs.Prelude.{◌≡◌, ◌<◌, [], ◌∷◌, IfOk};
ghost use Rattle.replay_seats.specs.Turning.{lines_of, turn_of, request_behind, idle_line};

use crate::turn::Turn;
use lists::Text;
use seat_steps::Stepped;
use std::alloc::{AllocError, Global};
use trace_lines::{Step, step_line};

/// What a step told, how the seat goes on, and its request. B: open requests.
#[derive(Drop)]
pub(crate) struct Outcome<B> {
    pub(crate) lines: Vec<Text>,
    pub(crate) turn: Turn,
    pub(crate) request: Option<B>,
}

// The list of one line.
fn one_line(alloc: Global, line: Text) -> Result<Vec<Text>, AllocError>
    ensures { IfOk result (λ lines. lines.items ≡ line ∷ []) }
{
    let mut lines = Vec::new(alloc);
    lines.push(line)?;
    Ok(lines)
}

/// What stands behind a step.
pub(crate) fn outcome_of<B: Drop>(
    alloc: Global,
    stepped: Stepped<B>,
) -> Result<Outcome<B>, AllocError>
    ensures lines { IfOk result (λ outcome. outcome.lines.items ≡ lines_of stepped) }
    ensures turn { IfOk result (λ outcome. outcome.turn ≡ turn_of stepped) }
    ensures request { IfOk result (λ outcome. outcome.request ≡ request_behind stepped) }
{
    match stepped {
        Stepped::Went(lines, request) => Ok(Outcome {
            lines: lines.into_vec(),
            turn: Turn::Went,
            request,
        }),
        Stepped::Waits(line, request) => Ok(Outcome {
            lines: one_line(alloc, line)?,
            turn: Turn::Waits,
            request: Some(request),
        }),
        Stepped::Limit => Ok(Outcome {
            lines: Vec::new(alloc),
            turn: Turn::Limit,
            request: None,
        }),
    }
}

/// The lines of a seat without a request.
pub(crate) fn idle_lines(alloc: Global, seat: u32) -> Result<Vec<Text>, AllocError>
    requires { seat < 64 }
    ensures { IfOk result (λ lines. lines.items ≡ idle_line seat ∷ []) }
{
    one_line(alloc, step_line(alloc, seat, Step::Idle)?)
}
