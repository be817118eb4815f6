//! What stands below the application's folders: one listing of each folder and one stat of each entry, since only a
//! stat
//! tells a folder from a file. No file is opened.

use crate::fault::{FolderFault, is_gone};
use lists::Text;
use outside::{CONFIGURATION_PATH, FilePath, Stamp};
use std::alloc::{AllocError, Global};
use std::fs::Metadata;
use std::io::Read;
use std::os::unix::fs::MetadataExt;
use std::rt::Files;
use std::time::UNIX_EPOCH;
use std::{fs, io, str};

/// The room for the names of one read of a folder. The longest name has 255 bytes.
const NAMES_ROOM: usize = 4_096;

/// The folders that are still to be listed, and the files that were found.
#[derive(Drop)]
struct Walk {
    alloc: Global,
    folders: Vec<String>,
    files: Vec<(FilePath, Stamp)>,
}

/// What the folder that is being listed has had so far: how many folders, and a name that isn't UTF-8, if one was
/// there.
#[derive(Drop)]
struct Seen {
    folders: u64,
    odd_name: Option<FolderFault>,
}

/// A file's length, and the time of its last change in nanoseconds since 1970, 0 where it is before that year.
fn stamp_of(meta: &Metadata) -> Stamp {
    let since_1970 = match meta.modified() {
        Ok(time) => time
            .duration_since(UNIX_EPOCH)
            .map_or(0, |since| since.as_nanos()),
        Err(_) => 0,
    };
    Stamp {
        length: meta.len(),
        time: u64::try_from(since_1970).unwrap_or(u64::MAX),
    }
}

impl Walk {
    fn new(alloc: Global) -> Walk {
        Walk {
            alloc,
            folders: Vec::new(alloc),
            files: Vec::new(alloc),
        }
    }

    fn add_file(&mut self, path: &str, meta: &Metadata) -> Result<(), AllocError> {
        let path = Text::from_bytes(self.alloc, path.as_bytes())?;
        self.files.push((path, stamp_of(meta)))?;
        Ok(())
    }
}

/// What stands at a path, a link as itself: nothing where it has gone.
fn look<R: Files>(rt: &R, alloc: Global, path: &str) -> Result<Option<Metadata>, FolderFault> {
    match fs::symlink_metadata(rt, path) {
        Ok(meta) => Ok(Some(meta)),
        Err(error) => if is_gone(&error) {
            Ok(None)
        } else {
            Err(FolderFault::system(alloc, path, error))
        },
    }
}

/// Whether a folder stands at the path, and not a link to one.
fn is_folder<R: Files>(rt: &R, alloc: Global, path: &str) -> Result<bool, FolderFault> {
    Ok(look(rt, alloc, path)?.is_some_and(|meta| meta.is_dir()))
}

/// Passes over a name that isn't UTF-8, unless it is that of a watched file.
fn pass_over(alloc: Global, folder: &str, name: &[u8], seen: &mut Seen) -> Result<(), FolderFault> {
    let fault = FolderFault::not_utf8(alloc, folder, name);
    if name.ends_with(b".rb") {
        return Err(fault);
    }
    seen.odd_name = Some(fault);
    Ok(())
}

/// Judges an entry of a folder: a folder is listed later, and a file whose name ends in `.rb` is found.
fn visit<R: Files>(
    rt: &R,
    folder: &str,
    name: &[u8],
    walk: &mut Walk,
    seen: &mut Seen,
) -> Result<(), FolderFault> {
    if name == b".".as_slice() || name == b"..".as_slice() {
        return Ok(());
    }
    let Ok(text) = str::from_utf8(name) else {
        return pass_over(walk.alloc, folder, name, seen);
    };
    let path = format!(in walk.alloc; "{folder}/{text}")?;
    let Some(meta) = look(rt, walk.alloc, path.as_str())? else {
        return Ok(());
    };
    if meta.is_dir() {
        seen.folders = seen.folders.saturating_add(1);
        walk.folders.push(path)?;
    } else if meta.is_file() && name.ends_with(b".rb") {
        walk.add_file(path.as_str(), &meta)?;
    }
    Ok(())
}

/// Judges the entries with these names, each of which is ended by a zero byte.
fn visit_each<R: Files>(
    rt: &R,
    folder: &str,
    names: &[u8],
    walk: &mut Walk,
    seen: &mut Seen,
) -> Result<(), FolderFault> {
    for name in names.split(|byte| *byte == 0) {
        if !name.is_empty() {
            visit(rt, folder, name, walk, seen)?;
        }
    }
    Ok(())
}

/// A name that isn't UTF-8 is a fault where it may be that of a folder. A folder has a link for each folder in it, one
/// from its own parent and one from itself, so links in that number say that it has no folders but those seen.
fn judge_odd_name<R: Files>(
    rt: &R,
    alloc: Global,
    folder: &str,
    seen: Seen,
) -> Result<(), FolderFault> {
    let Seen { folders, odd_name } = seen;
    let Some(fault) = odd_name else {
        return Ok(());
    };
    match look(rt, alloc, folder)? {
        Some(meta) => if meta.nlink() == folders.saturating_add(2) {
            Ok(())
        } else {
            Err(fault)
        },
        None => Ok(()),
    }
}

/// Lists a folder, if it hasn't gone: its folders onto the list of those that are still to be listed, its files among
/// those found.
fn list_folder<R: Files>(
    rt: &R,
    folder: &str,
    names: &mut [u8],
    walk: &mut Walk,
) -> Result<(), FolderFault> {
    let alloc = walk.alloc;
    let mut listing = match rt.open_dir(folder) {
        Ok(listing) => listing,
        Err(error) => return unless_gone(alloc, folder, error),
    };
    let mut seen = Seen {
        folders: 0,
        odd_name: None,
    };
    for _ in 0..u64::MAX {
        match listing.read(names) {
            Ok(0) => break,
            Ok(count) => visit_each(rt, folder, &names[..count], walk, &mut seen)?,
            Err(error) => return unless_gone(alloc, folder, error),
        }
    }
    judge_odd_name(rt, alloc, folder, seen)
}

fn unless_gone(alloc: Global, path: &str, error: io::Error) -> Result<(), FolderFault> {
    if is_gone(&error) {
        Ok(())
    } else {
        Err(FolderFault::system(alloc, path, error))
    }
}

/// Lists the folder with this name, if there is one, and all below it.
fn list_below<R: Files>(
    rt: &R,
    folder: &str,
    names: &mut [u8],
    walk: &mut Walk,
) -> Result<(), FolderFault> {
    if !is_folder(rt, walk.alloc, folder)? {
        return Ok(());
    }
    walk.folders.push(String::from_str(walk.alloc, folder)?)?;
    for _ in 0..u64::MAX {
        match walk.folders.pop() {
            Some(folder) => list_folder(rt, folder.as_str(), names, walk)?,
            None => break,
        }
    }
    Ok(())
}

/// Finds the configuration file, if there is one: neither it nor its folder is a link.
fn find_configuration<R: Files>(rt: &R, walk: &mut Walk) -> Result<(), FolderFault> {
    if !is_folder(rt, walk.alloc, "config")? {
        return Ok(());
    }
    match look(rt, walk.alloc, CONFIGURATION_PATH)? {
        Some(meta) if meta.is_file() => walk.add_file(CONFIGURATION_PATH, &meta)?,
        _ => {}
    }
    Ok(())
}

/// The paths and stamps of the files below `app` and `lib` whose names end in `.rb`, and of the configuration, in no
/// order.
pub fn find_files<R: Files + AllocGlobal>(rt: &R) -> Result<Vec<(FilePath, Stamp)>, FolderFault> {
    let mut walk = Walk::new(rt.alloc());
    let mut names = Vec::from_elem(rt.alloc(), 0u8, NAMES_ROOM)?;
    list_below(rt, "app", names.as_mut_slice(), &mut walk)?;
    list_below(rt, "lib", names.as_mut_slice(), &mut walk)?;
    find_configuration(rt, &mut walk)?;
    let Walk { files, .. } = walk;
    Ok(files)
}
