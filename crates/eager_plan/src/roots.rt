ghost use Rattle.std.specs.Prelude.{◌≡◌, ℕ, ◌<◌, length, slice_get, Some, IfOk};
ghost use Rattle.outside.specs.Tree.{paths_of};
ghost use Rattle.tree_scan_roots.specs.Above.{IsLongestAbove};
ghost use Rattle.tree_scan_roots.specs.Directories.{IsAbove};
ghost use Rattle.tree_scan_roots.specs.Roots.{AreRoots, NamesOnce};
ghost use Rattle.tree_scan_roots.specs.declared.roots.Root.{Root};
ghost use Rattle.eager_order.specs.EagerOrder.{IsBelowRoot};

use app_config::Config;
use outside::FileEntry;
use std::alloc::{AllocError, Global};
use tree_scan_roots::{RootTable, RootsFault};

/// The roots of an application whose root lines name each path once.
pub(crate) fn roots_of(
    alloc: Global,
    files: &[FileEntry],
    config: &Config,
) -> Result<RootTable, AllocError>
    requires { NamesOnce config.now.roots }
    ensures { IfOk result (AreRoots (paths_of files.now) config.now.roots) }
{
    match RootTable::new(alloc, files, config.roots.as_slice()) {
        Ok(roots) => Ok(roots),
        Err(RootsFault::Memory) => Err(AllocError),
        Err(RootsFault::TwoRoots(_)) => unreachable!(),
    }
}

fn root_at(roots: &RootTable, number: u32) -> &[u8]
    requires { number < length roots.now }
    ensures { (root : Root) → slice_get roots.now number ≡ Some root → root.path ≡ result.now }
{
    roots.roots()[number as usize].path.as_bytes()
}

/// The path of the longest root above a path.
pub(crate) fn root_above<'a>(roots: &'a RootTable, path: &[u8]) -> &'a [u8]
    requires { IsBelowRoot roots.now path.now }
    ensures above { IsAbove result.now path.now }
    ensures longest { (number : ℕ) → (longest : IsLongestAbove roots.now path.now number) →
        longest.root.path ≡ result.now }
{
    match roots.above(path) {
        Some(number) => root_at(roots, number),
        None => unreachable!(),
    }
}
