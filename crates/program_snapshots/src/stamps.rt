ghost use Rattle.std.specs.Prelude.{◌≡◌, ◌↔◌, IsTrue};
ghost use Rattle.outside.specs.Tree.{stamps_of};
ghost use Rattle.program_snapshots.specs.Stamps.{same_stamp, same_stamps};

use outside::{FileEntry, FilePath, Stamp};

fn is_same(stamp: &(FilePath, Stamp), file: &FileEntry) -> bool
    ensures { result ≡ same_stamp stamp.now file.now }
{
    stamp.0.as_bytes() == file.path.as_bytes()
        && stamp.1.length == file.stamp.length
        && stamp.1.time == file.stamp.time
}

fn are_same(stamps: &[(FilePath, Stamp)], files: &[FileEntry]) -> bool
    ensures { result ≡ same_stamps stamps.now files.now }
{
    let mut left = stamps;
    let mut right = files;
    'stamps: while let [stamp, behind @ ..] = left {
        let [file, after @ ..] = right else {
            return false;
        };
        if !is_same(stamp, file) {
            return false;
        }
        left = behind;
        right = after;
    }
    right.is_empty()
}

/// Whether these are the stamps of the files.
pub fn are_stamps_of(stamps: &[(FilePath, Stamp)], files: &[FileEntry]) -> bool
    ensures { IsTrue result ↔ (stamps.now ≡ stamps_of files.now) }
{
    are_same(stamps, files)
}
