ghost use Rattle.std.specs.Prelude.{◌≡◌, ◌<◌, ◌+◌, length, map, take, All, IfOk};
ghost use Rattle.tree_scan.specs.Sites.{path_at};
ghost use Rattle.tree_scan_roots.specs.Above.{IsLongestAbove};
ghost use Rattle.eager_order.specs.EagerOrder.{IsBelowRoot, placed_order};
ghost use Rattle.eager_order.specs.Placed.{IsPlaced};

use outside::FileEntry;
use plain_text::segments;
use ruby_types::TextList;
use std::alloc::{AllocError, Global};
use std::cmp::Ordering;
use tree_scan_roots::RootTable;
use tree_scan_sites::compare_paths;

/// A file with the number of its root and the segments of its path.
#[derive(Drop)]
pub struct PlacedFile {
    pub root: u32,
    pub segments: TextList,
    pub file: u32,
}

/// The order of files: by root, then by level, then by the segments of their paths.
pub(crate) fn compare_placed(placed: &PlacedFile, other: &PlacedFile) -> Ordering
    ensures { result ≡ placed_order placed.now other.now }
{
    match placed.root.cmp(&other.root) {
        Ordering::Equal => match placed.segments.len().cmp(&other.segments.len()) {
            Ordering::Equal => {
                compare_paths(placed.segments.as_slice(), other.segments.as_slice())
            }
            unequal => unequal,
        },
        unequal => unequal,
    }
}

fn path_at(files: &[FileEntry], number: u32) -> &[u8]
    requires { number < length files.now }
    ensures { result.now ≡ path_at files.now number }
{
    files[number as usize].path.as_bytes()
}

fn root_above(roots: &RootTable, path: &[u8]) -> u32
    requires { IsBelowRoot roots.now path.now }
    ensures { IsLongestAbove roots.now path.now result }
{
    match roots.above(path) {
        Some(root) => root,
        None => unreachable!(),
    }
}

fn place_file(
    alloc: Global,
    files: &[FileEntry],
    roots: &RootTable,
    number: u32,
) -> Result<PlacedFile, AllocError>
    requires within { number < length files.now }
    requires below { IsBelowRoot roots.now (path_at files.now number) }
    ensures file { IfOk result (λ placed. placed.file ≡ number) }
    ensures placed { IfOk result (IsPlaced roots.now files.now) }
{
    let path = path_at(files, number);
    Ok(PlacedFile {
        root: root_above(roots, path),
        segments: segments(alloc, path)?,
        file: number,
    })
}

/// The files of these numbers with their roots and segments.
pub(crate) fn place_files(
    alloc: Global,
    files: &[FileEntry],
    roots: &RootTable,
    numbers: &[u32],
) -> Result<Vec<PlacedFile>, AllocError>
    requires within { All (λ number. number < length files.now) numbers.now }
    requires below { All (λ number. IsBelowRoot roots.now (path_at files.now number)) numbers.now }
    ensures files { IfOk result (λ all. map (λ placed. placed.file) all.items ≡ numbers.now) }
    ensures placed { IfOk result (λ all. All (IsPlaced roots.now files.now) all.items) }
{
    let mut placed = Vec::new(alloc);
    'numbers: for number in numbers {
        placed.push(place_file(alloc, files, roots, *number)?)?;
    }
    Ok(placed)
}
