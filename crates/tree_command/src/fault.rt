ghost use Rattle.std.specs.Prelude.{◌≡◌};

use app_config::{ConfigFault, ConfigKind};
use std::alloc::AllocError;
use std::fmt;
use thiserror::Error;
use tree_report::Refusal;
use tree_scan::ScanFault;

/// Why an application has no listing.
#[derive(Drop, Error)]
pub enum ListingFault {
    /// The application is refused, and its line says why.
    #[error("the application is refused, print its refusal")]
    Refused(Refusal),
    /// Memory ran out.
    #[error("out of memory, try again with more")]
    Memory,
}

impl fmt::Debug for ListingFault {
    fn fmt<W: fmt::Write>(&self, f: &mut fmt::Formatter<W>) -> fmt::Result {
        fmt::Display::fmt(self, f)
    }
}

impl From<AllocError> for ListingFault {
    ghost use Rattle.tree_command.specs.declared.fault.ListingFault.TheVariants.{Memory};

    ghost from_gives = { λ _ fault. fault ≡ Memory };

    fn from(_error: AllocError) -> ListingFault {
        ListingFault::Memory
    }
}

impl From<ConfigFault> for ListingFault {
    ghost use Rattle.tree_command.specs.Faults.{of_configuration};

    ghost from_gives = { λ found fault. fault ≡ of_configuration found };

    fn from(found: ConfigFault) -> ListingFault {
        match found.kind {
            ConfigKind::Memory => ListingFault::Memory,
            _ => ListingFault::Refused(Refusal::Configuration(found)),
        }
    }
}

impl From<ScanFault> for ListingFault {
    ghost use Rattle.tree_command.specs.Faults.{of_scan};

    ghost from_gives = { λ found fault. fault ≡ of_scan found };

    fn from(found: ScanFault) -> ListingFault {
        match found {
            ScanFault::TwoRoots(path) => ListingFault::Refused(Refusal::TwoRoots(path)),
            ScanFault::BadName(path) => ListingFault::Refused(Refusal::BadName(path)),
            ScanFault::Memory => ListingFault::Memory,
        }
    }
}
