ghost use Rattle.std.specs.Prelude.{◌≡◌};

use outside::FilePath;
use std::alloc::AllocError;
use std::fmt;
use thiserror::Error;
use tree_scan_roots::{RootsFault, path_shown};

/// Why an application has no sites.
#[derive(Drop, Error)]
pub enum ScanFault {
    /// A name below the root of this file, its own or a directory's, is no constant name. Of several such files it is
    /// the first by path.
    #[error("{} spells no constant, rename it or ignore it", path_shown(.0))]
    BadName(FilePath),
    /// Two root lines of the configuration name this path. Of several such paths it is that of the first line whose
    /// path an earlier line names.
    #[error("two root lines name {}, remove one of them", path_shown(.0))]
    TwoRoots(FilePath),
    /// Memory ran out.
    #[error("out of memory, try again with more")]
    Memory,
}

impl fmt::Debug for ScanFault {
    fn fmt<W: fmt::Write>(&self, f: &mut fmt::Formatter<W>) -> fmt::Result {
        fmt::Display::fmt(self, f)
    }
}

impl From<AllocError> for ScanFault {
    ghost use Rattle.tree_scan.specs.declared.fault.ScanFault.TheVariants.{Memory};

    ghost from_gives = { λ _ fault. fault ≡ Memory };

    fn from(_error: AllocError) -> ScanFault {
        ScanFault::Memory
    }
}

impl From<RootsFault> for ScanFault {
    ghost use Rattle.tree_scan.specs.Faults.{of_roots};

    ghost from_gives = { λ roots fault. fault ≡ of_roots roots };

    fn from(fault: RootsFault) -> ScanFault {
        match fault {
            RootsFault::TwoRoots(path) => ScanFault::TwoRoots(path),
            RootsFault::Memory => ScanFault::Memory,
        }
    }
}
