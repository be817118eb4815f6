ghost use Rattle.std.specs.Prelude.{◌≡◌, ◌<◌, ◌^◌, Some, length, slice_get, IfSome, IfNone};
ghost use Rattle.std.specs.List.Sorted.{IsSearchInRange, IsBinarySearchResult};
ghost use Rattle.outside.specs.Order.{Rising, order};
ghost use Rattle.outside.specs.Table.{HasPath};
ghost use Rattle.outside.specs.Tree.{paths_of};

use outside::FileEntry;
use std::cmp::Ordering;

/// The place of the file with this path, or where it would stand.
fn place_in(files: &[FileEntry], path: &[u8]) -> Result<usize, usize>
    ensures bound { IsSearchInRange result (length files.now) }
    ensures position { IsBinarySearchResult (λ f. order f.path path.now) files.now result }
{
    files.binary_search_by(
        |file: &FileEntry| -> Ordering
            ensures { result ≡ order file.now.path path.entry.now }
        { file.path.as_bytes().cmp(path) },
    )
}

/// The number of the file with this path, if there is one.
pub fn number_of(files: &[FileEntry], path: &[u8]) -> Option<u32>
    requires rising { Rising (paths_of files.now) }
    requires small { length files.now < 2 ^ 32 }
    ensures found { IfSome result (λ number. slice_get (paths_of files.now) number ≡ Some path.now) }
    ensures none { IfNone result (¬ HasPath files.now path.now) }
{
    match place_in(files, path) {
        Ok(place) => Some(place as u32),
        Err(_) => None,
    }
}
