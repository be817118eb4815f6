//! Why the application's folder could not be read.

use std::alloc::{AllocError, Global};
use std::io;
use thiserror::Error;

/// Why the application's folder could not be read.
#[derive(Debug, Drop, Error)]
pub enum FolderFault {
    /// The system refused a file or a folder.
    #[error("{path}: {reason}")]
    System { path: String, reason: io::Error },
    /// A name that isn't UTF-8 is that of a watched file, or may be that of a folder of watched files.
    #[error("{path}: the name is not UTF-8, rename it")]
    NotUtf8 { path: String },
    #[error(transparent)]
    Memory(#[from(alloc)] AllocError),
}

impl FolderFault {
    /// The system's answer at a path. Its want of memory is ours.
    pub fn system(alloc: Global, path: &str, reason: io::Error) -> FolderFault {
        if reason.kind() == io::ErrorKind::OutOfMemory {
            return FolderFault::Memory(AllocError);
        }
        match String::from_str(alloc, path) {
            Ok(path) => FolderFault::System { path, reason },
            Err(_) => FolderFault::Memory(AllocError),
        }
    }

    /// A name in a folder that isn't UTF-8, with each wrong part shown as the replacement character.
    pub fn not_utf8(alloc: Global, folder: &str, name: &[u8]) -> FolderFault {
        match shown_path(alloc, folder, name) {
            Ok(path) => FolderFault::NotUtf8 { path },
            Err(_) => FolderFault::Memory(AllocError),
        }
    }
}

fn shown_path(alloc: Global, folder: &str, name: &[u8]) -> Result<String, AllocError> {
    let mut path = String::from_str(alloc, folder)?;
    path.push('/')?;
    path.push_str(String::from_utf8_lossy(alloc, name)?.as_str())?;
    Ok(path)
}

/// Whether what the system was asked for has gone. Editors write and remove files all the time.
pub fn is_gone(error: &io::Error) -> bool {
    matches!(
        error.kind(),
        io::ErrorKind::NotFound | io::ErrorKind::NotADirectory
    )
}
