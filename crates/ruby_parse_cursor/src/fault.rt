//! Why reading stops.

ghost use Rattle.std.specs.Prelude.{◌≡◌};

use std::alloc::AllocError;

/// Why reading stops. `Unexpected`, `Deep` and `Barred` stand at the word at hand, `Twice` at the byte that it tells.
#[derive(Clone, Copy, Debug, PartialEq, Eq)]
pub enum Fault {
    /// Nothing goes on with this word.
    Unexpected,
    /// The word would open a level too much.
    Deep,
    /// The word would assign an instance variable where none is assigned.
    Barred,
    /// A name is defined a second time.
    Twice(u32),
    Memory,
}

impl From<AllocError> for Fault {
    ghost use Rattle.ruby_parse_cursor.specs.declared.fault.Fault.TheVariants.{Memory};

    ghost from_gives = { λ _ e. e ≡ Memory };

    fn from(_: AllocError) -> Fault {
        Fault::Memory
    }
}
