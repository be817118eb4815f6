ghost use Rattle.std.specs.Prelude.{◌≡◌, ◌≢◌, ◌<◌, length, map, All, AllPairs, IfOk, OnOk};
ghost use Rattle.std.specs.List.Sorted.{IsPermutation, IsSorted};
ghost use Rattle.tree_scan.specs.Sites.{path_at};
ghost use Rattle.eager_order.specs.EagerOrder.{AreInEagerOrder, IsBelowRoot, placed_order};

use crate::placed::{PlacedFile, compare_placed, place_files};
use outside::Snapshot;
use std::alloc::{AllocError, Global};
use std::cmp::Ordering;
use tree_scan_roots::RootTable;

fn put_in_order(placed: &mut Vec<PlacedFile>) -> Result<(), AllocError>
    ensures sorted { OnOk result (IsSorted placed_order placed.new.items) }
    ensures permutation { IsPermutation placed.old.items placed.new.items }
{
    placed.sort_by(
        |placed: &PlacedFile, other: &PlacedFile| -> Ordering
            ensures { result ≡ placed_order placed.now other.now }
        { compare_placed(placed, other) },
    )
}

fn numbers_of(alloc: Global, placed: &[PlacedFile]) -> Result<Vec<u32>, AllocError>
    ensures { IfOk result (λ numbers. numbers.items ≡ map (λ placed. placed.file) placed.now) }
{
    let mut numbers = Vec::new(alloc);
    'files: for file in placed {
        numbers.push(file.file)?;
    }
    Ok(numbers)
}

/// The files of these numbers in eager order. Each is below a root, and none is told twice. An error where memory runs
/// out.
pub fn in_eager_order(
    alloc: Global,
    snapshot: &Snapshot,
    roots: &RootTable,
    numbers: &[u32],
) -> Result<Vec<u32>, AllocError>
    requires within { All (λ number. number < length snapshot.now.files) numbers.now }
    requires below { All (λ number. IsBelowRoot roots.now (path_at snapshot.now.files number)) numbers.now }
    requires once { AllPairs (λ number other. number ≢ other) numbers.now }
    ensures { IfOk result (λ ordered. AreInEagerOrder roots.now snapshot.now.files numbers.now ordered.items) }
{
    let mut placed = place_files(alloc, snapshot.files.as_slice(), roots, numbers)?;
    put_in_order(&mut placed)?;
    numbers_of(alloc, placed.as_slice())
}
