//! Files in the order of their paths.
ghost use Rattle.std.specs.Prelude.{◌≡◌, ◌≤◌, [], length, All, IsTrue, IfOk};
ghost use Rattle.outside_real.specs.Ordered.{IsBehindLast};
ghost use Rattle.outside.specs.Tree.{IsSized, paths_of};
ghost use Rattle.outside.specs.Watched.{ListsWatched};

use outside::{FileBytes, FileEntry, FilePath, Stamp, is_watched};
use std::alloc::{AllocError, Global};
use std::cmp::Ordering;
use std::marker::Model;

/// Watched files, each behind those whose paths come before its own, with no more bytes than their stamps say.
#[derive(Drop)]
pub struct OrderedFiles {
    files: Vec<FileEntry>,
}

impl Model for OrderedFiles {
    ghost use Rattle.std.specs.Prelude.{List, All};
    ghost use Rattle.outside.specs.declared.files.FileEntry.{FileEntry};

    ghost Value = { List FileEntry };

    ghost use Rattle.outside.specs.Tree.{IsSized, paths_of};
    ghost use Rattle.outside.specs.Watched.{ListsWatched};

    ghost view = { λ f. f.files.items };

    ghost invariant = { λ f. ListsWatched (paths_of f.files.items) × All IsSized f.files.items };
}

/// Whether the path comes behind that of the last file.
fn is_next(files: &[FileEntry], path: &[u8]) -> bool
    ensures { IsTrue result → IsBehindLast files.now path.now }
{
    match files.last() {
        Some(last) => matches!(last.path.as_bytes().cmp(path), Ordering::Less),
        None => true,
    }
}

impl OrderedFiles {
    /// No files, with room for this many; an error where memory runs out.
    pub fn with_room(alloc: Global, count: usize) -> Result<OrderedFiles, AllocError>
        ensures { IfOk result (λ files. files ≡ []) }
    {
        Ok(OrderedFiles {
            files: Vec::with_capacity(alloc, count)?,
        })
    }

    /// Adds a file at the end. One that isn't watched, or whose path doesn't come behind the last one's, is passed
    /// over.
    pub fn add(&mut self, path: FilePath, stamp: Stamp, bytes: FileBytes) -> Result<(), AllocError>
        requires { length bytes ≤ stamp.length }
    {
        if is_watched(path.as_bytes()) && is_next(self.files.as_slice(), path.as_bytes()) {
            self.files.push(FileEntry { path, bytes, stamp })?;
        }
        Ok(())
    }

    /// The files that were added, in the order of their paths.
    pub fn into_vec(self) -> Vec<FileEntry>
        ensures listed { ListsWatched (paths_of result.items) }
        ensures sized { All IsSized result.items }
    {
        let OrderedFiles { files } = self;
        files
    }
}
