ghost use Rattle.std.specs.Prelude.{◌≡◌, ◌<◌, ◌^◌, ◌-◌, find, length, min, bytes_eq, option_copied, slice_get};
ghost use Rattle.outside.specs.Order.{Rising};
ghost use Rattle.outside.specs.Tree.{paths_of};
ghost use Rattle.snapshot_changes.specs.Changes as spec;
ghost use Rattle.snapshot_changes.specs.Changes.{changed_by, changed_from};

use outside::FileEntry;
use program_snapshots::number_of;

fn file_at(files: &[FileEntry], number: u32) -> Option<&FileEntry>
    ensures { option_copied result ≡ slice_get files.now number }
{
    files.get(number as usize)
}

/// The file with this path.
fn old_of<'a>(files: &'a [FileEntry], path: &[u8]) -> Option<&'a FileEntry>
    requires rising { Rising (paths_of files.now) }
    requires small { length files.now < 2 ^ 32 }
    ensures { option_copied result ≡ find (λ f. bytes_eq f.path path.now) files.now }
{
    match number_of(files, path) {
        Some(number) => file_at(files, number),
        None => None,
    }
}

/// The bytes of a file, where it is new or differs from this one.
fn changed_from(old: Option<&FileEntry>, file: &FileEntry) -> usize
    ensures { result ≡ changed_from (option_copied old.entry) file.now }
{
    match old {
        Some(old) => {
            if old.bytes.as_bytes() == file.bytes.as_bytes() {
                0
            } else {
                file.bytes.len()
            }
        }
        None => file.bytes.len(),
    }
}

/// The bytes of a file, where it is new or differs from those before.
fn changed_by(before: &[FileEntry], file: &FileEntry) -> usize
    requires rising { Rising (paths_of before.now) }
    requires small { length before.now < 2 ^ 32 }
    ensures { result ≡ changed_by before.now file.now }
{
    changed_from(old_of(before, file.path.as_bytes()), file)
}

/// How many bytes the files have that are new or differ from those before, or the greatest number of 64 bits where they
/// have more. It takes no memory.
pub fn changed_bytes(before: &[FileEntry], after: &[FileEntry]) -> u64
    requires rising { Rising (paths_of before.now) }
    requires small { length before.now < 2 ^ 32 }
    ensures { result ≡ min (spec.changed_bytes before.now after.now) (2 ^ 64 - 1) }
{
    let mut total = 0u64;
    'files: for file in after {
        total = total.saturating_add(changed_by(before, file) as u64);
    }
    total
}
