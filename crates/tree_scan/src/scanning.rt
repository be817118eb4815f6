ghost use Rattle.std.specs.Prelude.{◌≡◌, ◌↔◌, ◌<◌, ◌^◌, ℕ, length, map, All, Contains, IfOk, IfErr};
ghost use Rattle.std.specs.List.Sorted.{IsStrictlyIncreasing};
ghost use Rattle.outside.specs.Order.{Rising};
ghost use Rattle.outside.specs.Tree.{paths_of};
ghost use Rattle.tree_scan.specs.Sites.{AreSites, ArePathsOf, IsFault, path_at};

use crate::fault::ScanFault;
use crate::sites::{FilePaths, Sites};
use crate::spelling::spelled_by;
use app_config::Config;
use lists::Copying;
use outside::{FileEntry, FilePath, Snapshot};
use std::alloc::{AllocError, Global};
use tree_scan_names::NamingRules;
use tree_scan_roots::RootTable;
use tree_scan_sites::SiteTable;

fn path_at(files: &[FileEntry], number: u32) -> &FilePath
    requires { number < length files.now }
    ensures { result.now ≡ path_at files.now number }
{
    &files[number as usize].path
}

/// The paths of the files of these numbers.
fn copied_paths(
    alloc: Global,
    files: &[FileEntry],
    numbers: &[u32],
) -> Result<FilePaths, AllocError>
    requires { All (λ file. file < length files.now) numbers.now }
    ensures { IfOk result (λ paths. paths ≡ map (path_at files.now) numbers.now) }
{
    let mut paths = FilePaths::new(alloc);
    'numbers: for number in numbers {
        paths.push(path_at(files, *number).copy()?)?;
    }
    Ok(paths)
}

/// The paths of the files of these numbers, which rise.
fn paths_of(alloc: Global, files: &[FileEntry], numbers: &[u32]) -> Result<FilePaths, AllocError>
    requires within { All (λ file. file < length files.now) numbers.now }
    requires files_rise { Rising (paths_of files.now) }
    requires numbers_rise { IsStrictlyIncreasing numbers.now }
    ensures { IfOk result (ArePathsOf files.now (Contains numbers.now)) }
{
    copied_paths(alloc, files, numbers)
}

/// The sites of a snapshot's files under its configuration, or why there are none: first a fault of the root lines, and
/// then the first bad name.
pub fn scan(alloc: Global, snapshot: &Snapshot, config: &Config) -> Result<Sites, ScanFault>
    requires { length snapshot.now.files < 2 ^ 32 }
    ensures sites { IfOk result (AreSites snapshot.now.files config.now) }
    ensures fault { IfErr result (IsFault snapshot.now.files config.now) }
{
    let files = snapshot.files.as_slice();
    let roots = RootTable::new(alloc, files, config.roots.as_slice())?;
    let rules = NamingRules::new(alloc, config)?;
    let spelled = spelled_by(alloc, &rules, &roots, files)?;
    let table = SiteTable::new(alloc, spelled)?;
    let shadowed = paths_of(alloc, files, table.shadowed())?;
    Ok(Sites::of(table, shadowed))
}
