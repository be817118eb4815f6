ghost use Rattle.std.specs.Prelude.{◌≡◌};

use lists::{Listed, Text};
use ruby_types::CPath;
use std::alloc::AllocError;
use std::{fmt, str};
use thiserror::Error;

/// A directory below which each path spells a constant, and the namespace of these constants: no names for Object.
#[derive(Drop)]
pub struct Root {
    pub path: Text,
    pub namespace: CPath,
}

/// Roots in root order: the default roots in the order of their bytes, then those that root lines add.
pub type Roots = Listed<Root>;

/// Why there are no roots.
#[derive(Drop, Error)]
pub enum RootsFault {
    /// An earlier root line names this path too.
    #[error("two root lines name {}, remove one of them", path_shown(.0))]
    TwoRoots(Text),
    /// Memory ran out.
    #[error("out of memory, try again with more")]
    Memory,
}

/// A path as it is shown in a fault.
pub fn path_shown(path: &Text) -> &str {
    str::from_utf8(path.as_bytes()).unwrap_or("a path that isn't UTF-8")
}

impl fmt::Debug for RootsFault {
    fn fmt<W: fmt::Write>(&self, f: &mut fmt::Formatter<W>) -> fmt::Result {
        fmt::Display::fmt(self, f)
    }
}

impl From<AllocError> for RootsFault {
    ghost use Rattle.tree_scan_roots.specs.declared.roots.RootsFault.TheVariants.{Memory};

    ghost from_gives = { λ _ fault. fault ≡ Memory };

    fn from(_error: AllocError) -> RootsFault {
        RootsFault::Memory
    }
}
