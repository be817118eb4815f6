//! What the application's folder holds: its stamps, and the contents of its files.
ghost use Rattle.std.specs.Prelude.{◌≤◌, length, map, All, IfOk, IfSome};
ghost use Rattle.outside.specs.Tree.{IsSized, paths_of};
ghost use Rattle.outside.specs.Watched.{ListsWatched};

use crate::fault::{FolderFault, is_gone};
use crate::input::read_some;
use crate::listing::find_files;
use crate::ordered::OrderedFiles;
use lists::{Listed, Text};
use outside::{
    FileBytes, FileEntry, FilePath, Snapshot, Stamp, Stamps, are_within_limits, copy_stamps,
};
use std::alloc::{AllocError, Global};
use std::fs::File;
use std::io::Read;
use std::rt::Files;
use std::{io, str};

/// Files in the order of their paths, without their contents.
fn put_in_order(
    alloc: Global,
    mut found: Vec<(FilePath, Stamp)>,
) -> Result<Vec<FileEntry>, AllocError>
    ensures listed { IfOk result (λ files. ListsWatched (paths_of files.items)) }
    ensures sized { IfOk result (λ files. All IsSized files.items) }
{
    found.sort_unstable_by(|first, second| first.0.as_bytes().cmp(second.0.as_bytes()));
    let mut files = OrderedFiles::with_room(alloc, found.len())?;
    for (path, stamp) in found {
        files.add(path, stamp, Text::new(alloc))?;
    }
    Ok(files.into_vec())
}

/// The watched files as they stand, without their contents.
fn look_at_files<R: Files + AllocGlobal>(rt: &R) -> Result<Vec<FileEntry>, FolderFault>
    ensures listed { IfOk result (λ files. ListsWatched (paths_of files.items)) }
    ensures sized { IfOk result (λ files. All IsSized files.items) }
{
    let found = find_files(rt)?;
    Ok(put_in_order(rt.alloc(), found)?)
}

/// Fills the room from its beginning on, as far as the file goes.
fn fill<F: Read>(file: &mut F, room: &mut [u8]) -> io::Result<usize>
    ensures { IfOk result (λ count. count ≤ length room.old) }
{
    let mut filled = 0;
    'reads: while filled < room.len() {
        match read_some(file, &mut room[filled..])? {
            0 => break,
            count => filled += count,
        }
    }
    Ok(filled)
}

/// The first bytes of a file, at most so many.
fn read_bytes<R: Files + AllocGlobal>(rt: &R, path: &str, most: u64) -> io::Result<Vec<u8>>
    ensures { IfOk result (λ bytes. length bytes.items ≤ most) }
{
    let mut file = File::open(rt, path)?;
    let mut bytes = Vec::from_elem(rt.alloc(), 0u8, most as usize)?;
    let filled = fill(&mut file, bytes.as_mut_slice())?;
    bytes.truncate(filled);
    Ok(bytes)
}

/// A file's contents, up to the length that its stamp has: nothing where the file has gone. Of a file that grew since
/// it
/// was stamped the rest is left, since the next look at its stamp tells that it has changed.
fn read_file<R: Files + AllocGlobal>(
    rt: &R,
    path: &FilePath,
    stamp: Stamp,
) -> Result<Option<FileBytes>, FolderFault>
    ensures { IfOk result (λ read. IfSome read (λ bytes. length bytes ≤ stamp.length)) }
{
    let Ok(text) = str::from_utf8(path.as_bytes()) else {
        return Ok(None);
    };
    match read_bytes(rt, text, stamp.length) {
        Ok(bytes) => Ok(Some(Text::from_vec(rt.alloc(), bytes)?)),
        Err(error) => if is_gone(&error) {
            Ok(None)
        } else {
            Err(FolderFault::system(rt.alloc(), text, error))
        },
    }
}

/// The files with their contents, without those that have gone.
fn read_each<R: Files + AllocGlobal>(
    rt: &R,
    files: Vec<FileEntry>,
) -> Result<Vec<FileEntry>, FolderFault>
    ensures listed { IfOk result (λ files. ListsWatched (paths_of files.items)) }
    ensures sized { IfOk result (λ files. All IsSized files.items) }
{
    let mut read = OrderedFiles::with_room(rt.alloc(), files.len())?;
    for file in files {
        if let Some(bytes) = read_file(rt, &file.path, file.stamp)? {
            read.add(file.path, file.stamp, bytes)?;
        }
    }
    Ok(read.into_vec())
}

/// The stamps of the watched files as they stand. No file is opened.
pub fn read_stamps<R: Files + AllocGlobal>(rt: &R) -> Result<Stamps, FolderFault>
    ensures { IfOk result (λ stamps. ListsWatched (map (λ s. s.0) stamps)) }
{
    let files = look_at_files(rt)?;
    Ok(copy_stamps(rt.alloc(), files.as_slice())?)
}

/// The watched files as they stand. Where they exceed a limit, which their stamps tell, no file is opened and each is
/// given without its contents: nobody looks at more than the stamps then.
pub fn read_snapshot<R: Files + AllocGlobal>(rt: &R) -> Result<Snapshot, FolderFault>
    ensures listed { IfOk result (λ snapshot. ListsWatched (paths_of snapshot.files)) }
    ensures sized { IfOk result (λ snapshot. All IsSized snapshot.files) }
{
    let mut files = look_at_files(rt)?;
    let stamps = copy_stamps(rt.alloc(), files.as_slice())?;
    if are_within_limits(stamps.as_slice()) {
        files = read_each(rt, files)?;
    }
    Ok(Snapshot {
        files: Listed::from_vec(files),
    })
}
