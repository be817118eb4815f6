//! Why a request has no reply.
ghost use Rattle.std.specs.Prelude.{◌≡◌};

use outside::FilePath;
use std::alloc::AllocError;
use std::fmt;
use thiserror::Error;

/// Why there is no reply.
#[derive(Drop, Error)]
pub enum FirstRefusal {
    /// The file of this path is not of the one form that is read today.
    #[error("a file is no controller with one action whose body is one text")]
    NotBuilt(FilePath),
    #[error("out of memory")]
    Memory,
}

impl fmt::Debug for FirstRefusal {
    fn fmt<W: fmt::Write>(&self, f: &mut fmt::Formatter<W>) -> fmt::Result {
        match self {
            FirstRefusal::NotBuilt(_) => f.write_str("NotBuilt"),
            FirstRefusal::Memory => f.write_str("Memory"),
        }
    }
}

impl From<AllocError> for FirstRefusal {
    ghost use Rattle.load_rules.specs.declared.refusal.FirstRefusal.TheVariants.{Memory};

    ghost from_gives = { λ _ refusal. refusal ≡ Memory };

    fn from(_: AllocError) -> FirstRefusal {
        FirstRefusal::Memory
    }
}
