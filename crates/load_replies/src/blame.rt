ghost use Rattle.std.specs.Prelude.{◌≡◌, IfOk};
ghost use Rattle.by_need_loader.specs.Failures.{cause};
ghost use Rattle.program_theory.specs.Replies as spec;

use crate::names::push_arrows;
use by_need_loader::Failure;
use ruby_runs::NoReply;
use ruby_types::{ErrorClass, RubyError, Task, Text};
use std::alloc::{AllocError, Global};

fn circular(alloc: Global, ring: &[Task]) -> Result<RubyError, AllocError>
    ensures { IfOk result (λ error. error ≡ spec.circular ring.now) }
{
    let mut message = Vec::from_slice(alloc, b"circular load: ")?;
    push_arrows(&mut message, ring)?;
    Ok(RubyError {
        class: ErrorClass::Load,
        message: Text::from_vec(alloc, message)?,
        path: Text::new(alloc),
    })
}

/// The error that a blame is told as: the one that was raised, or the ring. (No task's blame is an end without an
/// error.) An error where memory runs out.
pub fn blame_error(
    alloc: Global,
    failure: Failure<Task, RubyError, NoReply>,
) -> Result<RubyError, AllocError>
    ensures { IfOk result (λ error. error ≡ spec.blame_error (cause failure)) }
{
    match failure {
        Failure::Raised(error) => Ok(error),
        Failure::Circle(ring) => circular(alloc, ring.as_slice()),
        Failure::Otherwise(_) => circular(alloc, &[]),
    }
}
