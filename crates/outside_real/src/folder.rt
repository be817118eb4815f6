//! The application's folder as a tree of files.
ghost use Rattle.std.specs.Prelude.{None, refl};
ghost use Rattle.outside.specs.Faults.{Rose};

use crate::fault::FolderFault;
use crate::reading::{read_snapshot, read_stamps};
use outside::{StampsAns, Tree, TreeAns};
use std::rt::Files;

/// The current folder, which tells nothing of what it holds. A missing folder holds no files, symbolic links are passed
/// over, and so is what goes while the tree is read. A stamp is a file's length and the time of its last change in
/// nanoseconds since 1970. Files beyond the limits of an application are given without their contents.
#[derive(Drop)]
pub struct FolderTree<R: Files + AllocGlobal + Drop> {
    rt: R,
    faults: u64,
    last_fault: Option<FolderFault>,
}

impl<R: Files + AllocGlobal + Drop> FolderTree<R> {
    /// The current folder, of which nothing is read yet.
    pub fn new(rt: R) -> FolderTree<R> {
        FolderTree {
            rt,
            faults: 0,
            last_fault: None,
        }
    }

    /// Why the last call that failed did so.
    pub fn last_fault(&self) -> Option<&FolderFault> {
        self.last_fault.as_ref()
    }

    fn note(&mut self, fault: FolderFault)
        ensures { Rose self.old.faults self.new.faults }
    {
        self.faults = self.faults.saturating_add(1);
        self.last_fault = Some(fault);
    }
}

impl<R: Files + AllocGlobal + Drop> Tree for FolderTree<R> {
    ghost faults = { λ tree. tree.faults };

    ghost holds = { λ _. None };

    ghost given = { λ _. None };

    fn stamps(&mut self) -> StampsAns {
        match read_stamps(&self.rt) {
            Ok(stamps) => StampsAns::Read(stamps),
            Err(FolderFault::Memory(_)) => StampsAns::Memory,
            Err(fault) => {
                self.note(fault);
                StampsAns::Failed
            }
        }
    }

    fn read_all(&mut self) -> TreeAns {
        match read_snapshot(&self.rt) {
            Ok(snapshot) => TreeAns::Read(snapshot),
            Err(FolderFault::Memory(_)) => TreeAns::Memory,
            Err(fault) => {
                self.note(fault);
                TreeAns::Failed
            }
        }
    }

    ghost tells_both = { λ _. refl };
}
