ghost use Rattle.std.specs.Prelude.{map};
ghost use Rattle.outside.specs.Order.{Rising, Rising-prop};

use lists::{Copying, Listed, Text};
use std::alloc::AllocError;

/// A file's path: its names from the application's folder on, joined by `/`.
pub type FilePath = Text;

/// A file's contents.
pub type FileBytes = Text;

/// What tells, without a look at the contents, whether a file has changed.
#[derive(Clone, Copy, Debug, PartialEq, Eq)]
pub struct Stamp {
    /// The number of the file's bytes.
    pub length: u64,
    /// When it was written: nanoseconds since 1970 in a real folder, the number of the write in memory.
    pub time: u64,
}

/// A file as it was read: its path, its contents and its stamp.
#[derive(Drop)]
pub struct FileEntry {
    pub path: FilePath,
    pub bytes: FileBytes,
    pub stamp: Stamp,
}

/// Files, each with its contents.
pub type FileEntries = Listed<FileEntry>;

/// Files without their contents: the path and the stamp of each.
pub type Stamps = Listed<(FilePath, Stamp)>;

/// The numbers of calls, counted from 1.
pub type CallNumbers = Listed<u64>;

/// The files that were read at one time, in the order of their paths by bytes.
#[derive(Drop)]
pub struct Snapshot {
    pub files: FileEntries,
    ghost rising: { Rising (map (λ f. f.path) files) } by { Rising-prop (map (λ f. f.path) files) },
}

impl Copying for Stamp {
    fn copy(&self) -> Result<Stamp, AllocError> {
        Ok(*self)
    }
}

impl Copying for FileEntry {
    fn copy(&self) -> Result<FileEntry, AllocError> {
        Ok(FileEntry {
            path: self.path.copy()?,
            bytes: self.bytes.copy()?,
            stamp: self.stamp,
        })
    }
}

impl Copying for Snapshot {
    fn copy(&self) -> Result<Snapshot, AllocError> {
        Ok(Snapshot {
            files: self.files.copy()?,
        })
    }
}
