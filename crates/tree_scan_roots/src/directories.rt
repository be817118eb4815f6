ghost use Rattle.std.specs.Prelude.{◌≡◌, IfSome, IfNone, ◌≢◌, ◌⊎◌, ◌↔◌, ◌++◌, ◌∷◌, List, ℕ, codes, option_copied};
ghost use Rattle.std.specs.Prelude.{IsTrue, IfOk, OnOk, MatchOption};
ghost use Rattle.outside.specs.Tree.{paths_of};
ghost use Rattle.tree_scan_roots.specs.Directories.{IsName, IsRootName, IsTopRoot, IsConcerns, IsDefaultRoot, IsAbove};
ghost use Rattle.tree_scan_roots.specs.Keys.{Has};

use app_config::cut_at;
use outside::FileEntry;
use std::alloc::{AllocError, Global};
use std::collections::BTreeSet;

/// Directories in the order of their bytes, each once.
pub(crate) type Directories = BTreeSet<Vec<u8>>;

/// The first name of a path, where a slash stands behind it, and what stands behind that.
fn first_name(path: &[u8]) -> Option<(&[u8], &[u8])>
    ensures { MatchOption result (IsName path.now) (λ parts. IsName parts.0.now
        × (path.now ≡ parts.0.now ++ 47 ∷ parts.1.now)) }
{
    let (name, behind) = cut_at(path, b'/');
    match behind {
        None => None,
        Some(below) => Some((name, below)),
    }
}

fn below_app(path: &[u8]) -> Option<&[u8]>
    ensures { MatchOption result ((below : List ℕ) → path.now ≢ codes "app/" ++ below)
        (λ below. path.now ≡ codes "app/" ++ below.now) }
{
    path.strip_prefix(b"app/")
}

/// The name of the directory below `app` in which a file is, and the file's path below that directory.
fn name_below_app(path: &[u8]) -> Option<(&[u8], &[u8])>
    ensures none { IfNone result ((name below : List ℕ) → IsName name →
        path.now ≢ codes "app/" ++ (name ++ 47 ∷ below)) }
    ensures found { IfSome result (λ parts. IsName parts.0.now
        × (path.now ≡ codes "app/" ++ (parts.0.now ++ 47 ∷ parts.1.now))) }
{
    match below_app(path) {
        Some(below) => first_name(below),
        None => None,
    }
}

fn is_root_name(name: &[u8]) -> bool
    ensures { IsTrue result ↔ IsRootName name.now }
{
    name != b"assets".as_slice() && name != b"javascript".as_slice() && name != b"views".as_slice()
}

fn begins_in_concerns(below: &[u8]) -> bool
    ensures { IsTrue result ↔ ((rest : List ℕ) × (below.now ≡ codes "concerns/" ++ rest)) }
{
    below.starts_with(b"concerns/")
}

/// The default root directly under `app` that is above a path.
fn top_root(path: &[u8]) -> Option<&[u8]>
    ensures { (directory : List ℕ) →
        (option_copied result ≡ Some directory) ↔ (IsTopRoot directory × IsAbove directory path.now) }
{
    let (name, _) = name_below_app(path)?;
    if is_root_name(name) {
        Some(&path[..name.len() + 4])
    } else {
        None
    }
}

/// The directory `app/*/concerns` that is above a path.
fn concerns_above(path: &[u8]) -> Option<&[u8]>
    ensures { (directory : List ℕ) →
        (option_copied result ≡ Some directory) ↔ (IsConcerns directory × IsAbove directory path.now) }
{
    let (name, below) = name_below_app(path)?;
    if begins_in_concerns(below) {
        Some(&path[..name.len() + 13])
    } else {
        None
    }
}

fn add_directory(found: &mut Directories, alloc: Global, directory: &[u8]) -> Result<(), AllocError>
    ensures { OnOk result ((other : List ℕ) → Has found.new other ↔ (Has found.old other ⊎ (directory.now ≡ other))) }
{
    if !found.contains(directory) {
        found.insert(Vec::from_slice(alloc, directory)?)?;
    }
    Ok(())
}

fn add_some(
    found: &mut Directories,
    alloc: Global,
    directory: Option<&[u8]>,
) -> Result<(), AllocError>
    ensures { OnOk result ((other : List ℕ) →
        Has found.new other ↔ (Has found.old other ⊎ (option_copied directory.entry ≡ Some other))) }
{
    match directory {
        Some(directory) => add_directory(found, alloc, directory),
        None => Ok(()),
    }
}

/// The default roots of which a file is below.
fn add_roots_above(found: &mut Directories, alloc: Global, path: &[u8]) -> Result<(), AllocError>
    ensures { OnOk result ((other : List ℕ) →
        Has found.new other ↔ (Has found.old other ⊎ ((IsTopRoot other ⊎ IsConcerns other) × IsAbove other path.now))) }
{
    add_some(found, alloc, top_root(path))?;
    add_some(found, alloc, concerns_above(path))?;
    Ok(())
}

/// The default roots of these files.
pub(crate) fn default_roots(alloc: Global, files: &[FileEntry]) -> Result<Directories, AllocError>
    ensures exact { IfOk result (λ found. (directory : List ℕ) →
        Has found directory ↔ IsDefaultRoot (paths_of files.now) directory) }
{
    let mut found = BTreeSet::new(alloc);
    'files: for file in files {
        add_roots_above(&mut found, alloc, file.path.as_bytes())?;
    }
    Ok(found)
}
