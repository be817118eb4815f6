ghost use Rattle.std.specs.Prelude.{◌≡◌, ◌≢◌, AllPairs, List, ℕ, Some, None, IfOk, IfErr, IsErrAnd, OnOk, IfSome};
ghost use Rattle.std.specs.Prelude.{IfNone, ◌<◌, MatchOption, length, take, ◌≤◌};
ghost use Rattle.outside.specs.Tree.{paths_of};
ghost use Rattle.tree_scan_roots.specs.Keys.{number_of};
ghost use Rattle.tree_scan_roots.specs.Roots.{AreRoots, NamesOnce, IsTwoRoots, IsFault, IsFaultAt, root_paths};
ghost use Rattle.tree_scan_roots.specs.Directories.{IsAbove};
ghost use Rattle.tree_scan_roots.specs.Above.{IsLongestAbove, NoneAbove};

use crate::building::{Building, add_default_roots, add_line_roots, nothing_built};
use crate::directories::default_roots;
use crate::numbers::{PathNumbers, line_numbers, number_of};
use crate::roots::{Root, Roots, RootsFault};
use app_config::RootLine;
use outside::FileEntry;
use std::alloc::Global;
use std::marker::Model;

/// The roots of an application in root order. A root's number is its place among them.
#[derive(Drop)]
pub struct RootTable {
    roots: Roots,
    numbers: PathNumbers,
}

impl Model for RootTable {
    ghost use Rattle.std.specs.Prelude.{List};
    ghost use Rattle.tree_scan_roots.specs.declared.roots.Root.{Root};

    ghost Value = { List Root };

    ghost use Rattle.tree_scan_roots.specs.Keys.{IsNumbering};
    ghost use Rattle.tree_scan_roots.specs.Roots.{root_paths};

    ghost view = { λ t. t.roots };

    ghost invariant = { λ t. IsNumbering (root_paths t.roots) t.numbers };
}

/// The number of the path up to a place, where a slash stands there.
fn number_up_to(numbers: &PathNumbers, path: &[u8], end: usize) -> Option<u32>
    requires { end < length path.now }
    ensures none { IfNone result ((directory : List ℕ) → IsAbove directory path.now → length directory ≡ end →
        number_of numbers.now directory ≡ None) }
    ensures found { IfSome result (λ number. IsAbove (take end path.now) path.now
        × (number_of numbers.now (take end path.now) ≡ Some number)) }
{
    if path[end] == b'/' {
        number_of(numbers, &path[..end])
    } else {
        None
    }
}

/// The roots, without the clause that follows from the others.
fn collect_roots(
    alloc: Global,
    files: &[FileEntry],
    lines: &[RootLine],
) -> Result<RootTable, RootsFault>
    ensures roots { IfOk result (AreRoots (paths_of files.now) lines.now) }
    ensures once { OnOk result (NamesOnce lines.now) }
    ensures fault { IfErr result (IsFault lines.now) }
{
    let numbers = line_numbers(alloc, lines)?;
    let directories = default_roots(alloc, files)?;
    let mut building = nothing_built(alloc);
    add_default_roots(&mut building, alloc, &directories, lines, &numbers)?;
    add_line_roots(&mut building, alloc, lines)?;
    let Building { roots, numbers } = building;
    Ok(RootTable { roots, numbers })
}

impl RootTable {
    /// The roots of an application that has these files and these root lines.
    pub fn new(
        alloc: Global,
        files: &[FileEntry],
        lines: &[RootLine],
    ) -> Result<RootTable, RootsFault>
        ensures roots { IfOk result (AreRoots (paths_of files.now) lines.now) }
        ensures once { OnOk result (NamesOnce lines.now) }
        ensures fault { IfErr result (IsFault lines.now) }
        ensures only { (path : List ℕ) → IsTwoRoots lines.now path → IsErrAnd result (IsFaultAt path) }
    {
        collect_roots(alloc, files, lines)
    }

    /// The roots in root order. No two have the same path.
    pub fn roots(&self) -> &[Root]
        ensures roots { result.now ≡ self.now }
        ensures distinct { AllPairs (λ a b. a ≢ b) (root_paths self.now) }
    {
        let _ = &self.numbers;
        self.roots.as_slice()
    }

    /// The number of the longest root above a path.
    pub fn above(&self, path: &[u8]) -> Option<u32>
        ensures { MatchOption result (NoneAbove self.now path.now) (IsLongestAbove self.now path.now) }
    {
        let mut end = path.len();
        'places: while end > 0 {
            end -= 1;
            let found = number_up_to(&self.numbers, path, end);
            if found.is_some() {
                return found;
            }
        }
        None
    }
}
