ghost use Rattle.std.specs.Prelude.{◌≡◌};

use ruby_types::{RubyError, Value};
use std::alloc::AllocError;

/// What a call of a built-in method answers: a value with its cost in turns, an error, or that there is no such method.
#[derive(Drop)]
pub enum Called {
    Value(Value, u64),
    Raised(RubyError),
    NoMethod,
    Memory,
}

impl From<AllocError> for Called {
    ghost use Rattle.ruby_builtin_base.specs.declared.called.Called.{Called};

    ghost from_gives = { λ e s. s ≡ Called.Memory };

    fn from(_: AllocError) -> Called {
        Called::Memory
    }
}
