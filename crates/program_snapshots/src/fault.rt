ghost use Rattle.std.specs.Prelude.{◌≡◌};

use app_config::{ConfigFault, ConfigKind};
use std::alloc::AllocError;
use std::fmt;
use thiserror::Error;
pub use tree_report::Limit as Which;
use tree_scan::ScanFault;

/// Why an application has no program.
#[derive(Drop, Error)]
pub enum ProgramFault {
    /// This limit is exceeded, by this number.
    #[error("the application exceeds a limit, make it smaller")]
    Limit(Which, u64),
    /// A line of the configuration has this fault.
    #[error("the configuration has a fault, mend its line")]
    Config(ConfigFault),
    /// Two root lines name one path, or a name is bad.
    #[error("the application has no sites, mend its names")]
    Scan(ScanFault),
    /// Memory ran out.
    #[error("out of memory, try again with more")]
    Memory,
}

impl fmt::Debug for ProgramFault {
    fn fmt<W: fmt::Write>(&self, f: &mut fmt::Formatter<W>) -> fmt::Result {
        fmt::Display::fmt(self, f)
    }
}

impl From<AllocError> for ProgramFault {
    ghost use Rattle.program_snapshots.specs.declared.fault.ProgramFault.TheVariants.{Memory};

    ghost from_gives = { λ _ fault. fault ≡ Memory };

    fn from(_error: AllocError) -> ProgramFault {
        ProgramFault::Memory
    }
}

impl From<ConfigFault> for ProgramFault {
    ghost use Rattle.program_snapshots.specs.Faults.{of_configuration};

    ghost from_gives = { λ found fault. fault ≡ of_configuration found };

    fn from(found: ConfigFault) -> ProgramFault {
        match found.kind {
            ConfigKind::Memory => ProgramFault::Memory,
            _ => ProgramFault::Config(found),
        }
    }
}

impl From<ScanFault> for ProgramFault {
    ghost use Rattle.program_snapshots.specs.Faults.{of_scan};

    ghost from_gives = { λ found fault. fault ≡ of_scan found };

    fn from(found: ScanFault) -> ProgramFault {
        match found {
            ScanFault::Memory => ProgramFault::Memory,
            ScanFault::TwoRoots(path) => ProgramFault::Scan(ScanFault::TwoRoots(path)),
            ScanFault::BadName(path) => ProgramFault::Scan(ScanFault::BadName(path)),
        }
    }
}
