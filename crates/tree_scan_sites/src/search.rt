ghost use Rattle.std.specs.Prelude.{◌≡◌, ◌≤◌, true, false, length, OnOk};
ghost use Rattle.std.specs.List.Sorted.{IsSorted, IsPartitionPoint, IsPermutation};
ghost use Rattle.tree_scan_sites.specs.Listed.{spelled_order, comes_before, first_file};

use crate::compare::compare_paths;
use crate::spelled::Spelled;
use lists::Text;
use std::alloc::AllocError;
use std::cmp::Ordering;

/// The order of spellings: by constant, then by root, then by file.
fn compare_spelled(entry: &Spelled, other: &Spelled) -> Ordering
    ensures { result ≡ spelled_order entry.now other.now }
{
    match compare_paths(entry.constant.as_slice(), other.constant.as_slice()) {
        Ordering::Equal => match entry.root.cmp(&other.root) {
            Ordering::Equal => entry.file.cmp(&other.file),
            unequal => unequal,
        },
        unequal => unequal,
    }
}

/// Sorts spellings by constant, then by root, then by file.
pub(crate) fn put_in_order(spelled: &mut Vec<Spelled>) -> Result<(), AllocError>
    ensures sorted { OnOk result (IsSorted spelled_order spelled.new.items) }
    ensures permutation { IsPermutation spelled.old.items spelled.new.items }
{
    spelled.sort_by(
        |entry: &Spelled, other: &Spelled| -> Ordering
            ensures { result ≡ spelled_order entry.now other.now }
        { compare_spelled(entry, other) },
    )
}

/// The place of the first spelling whose constant isn't before the path.
fn place_of(spelled: &[Spelled], path: &[Text]) -> usize
    requires { IsSorted spelled_order spelled.now }
    ensures bound { result ≤ length spelled.now }
    ensures parted { IsPartitionPoint (λ s. comes_before path.now s ≡ true) (λ s. comes_before path.now s ≡ false)
        spelled.now result }
{
    spelled.partition_point(
        |entry: &Spelled| -> bool
            ensures { result ≡ comes_before path.entry.now entry.now }
        { compare_paths(entry.constant.as_slice(), path).is_lt() },
    )
}

/// The file that comes first by root and file among those that spell the path.
pub(crate) fn file_in(spelled: &[Spelled], path: &[Text]) -> Option<u32>
    requires { IsSorted spelled_order spelled.now }
    ensures { result ≡ first_file path.now spelled.now }
{
    let place = place_of(spelled, path);
    if place == spelled.len() {
        return None;
    }
    let entry = &spelled[place];
    if compare_paths(entry.constant.as_slice(), path).is_eq() {
        Some(entry.file)
    } else {
        None
    }
}
