//! Files in memory.
ghost use Rattle.std.specs.Prelude.{◌≡◌, ◌↔◌, IsTrue, IfOk, OnOk};
ghost use Rattle.outside.specs.Watched.{IsWatched};
ghost use Rattle.outside.specs.Tree.{stamps_of};
ghost use Rattle.replay_files.specs.Holding.{no_files, Writes, removed};

use lists::Listed;
use outside::{MemTree, Snapshot, Stamps, StampsAns, Tree, TreeAns, is_watched};
use std::alloc::{AllocError, Global};
use std::marker::Model;

/// Files in memory. Contracts see the watched ones, in the order of their paths, and how many writes were made.
#[derive(Drop)]
pub struct Files {
    tree: MemTree,
}

impl Model for Files {
    ghost use Rattle.std.specs.Prelude.{◌≡◌, []};
    ghost use Rattle.replay_files.specs.Holding.{Holding};

    ghost Value = { Holding };

    ghost view = { λ f. record { held = f.tree.held; writes = f.tree.writes } };

    ghost invariant = { λ f. f.tree.calls.fails ≡ [] };
}

fn is_watched_path(path: &str) -> bool
    ensures { IsTrue result ↔ IsWatched path.now }
{
    is_watched(path.as_bytes())
}

impl Files {
    /// No files.
    pub fn new(alloc: Global) -> Files
        ensures { result ≡ no_files }
    {
        Files {
            tree: MemTree::new(alloc, Listed::new(alloc)),
        }
    }

    /// Writes a file, in place of one of the same path. Other files than watched ones are never given.
    pub fn write(&mut self, path: &str, bytes: &[u8]) -> Result<(), AllocError>
        ensures { OnOk result (Writes path.now bytes.now self.old self.new) }
    {
        let _is_watched = is_watched_path(path);
        self.tree.write(path, bytes)
    }

    /// Removes the file of this path, if there is one.
    pub fn remove(&mut self, path: &str)
        ensures { self.new ≡ removed path.now self.old }
    {
        self.tree.remove(path);
    }

    /// The stamps of the files.
    pub fn stamps(&mut self) -> Result<Stamps, AllocError>
        ensures stamps { IfOk result (λ stamps. stamps ≡ stamps_of self.old.held) }
        ensures same { self.new ≡ self.old }
    {
        match self.tree.stamps() {
            StampsAns::Read(stamps) => Ok(stamps),
            StampsAns::Failed => unreachable!(),
            StampsAns::Memory => Err(AllocError),
        }
    }

    /// The files.
    pub fn snapshot(&mut self) -> Result<Snapshot, AllocError>
        ensures files { IfOk result (λ snapshot. snapshot.files ≡ self.old.held) }
        ensures same { self.new ≡ self.old }
    {
        match self.tree.read_all() {
            TreeAns::Read(snapshot) => Ok(snapshot),
            TreeAns::Failed => unreachable!(),
            TreeAns::Memory => Err(AllocError),
        }
    }
}
