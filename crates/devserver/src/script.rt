//! The script that no command reads yet.
ghost use Rattle.std.specs.Prelude.{[], Some};

use outside::{ReadAns, Source};

/// A source at its end.
#[derive(Clone, Copy)]
pub struct NoScript;

impl Source for NoScript {
    ghost faults = { λ _. 0 };

    ghost left = { λ _. Some [] };

    fn read(&mut self, _into: &mut [u8]) -> ReadAns {
        ReadAns::End
    }
}
