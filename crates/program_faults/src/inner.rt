//! Constants inside a file's own that have a site.
ghost use Rattle.std.specs.Prelude.{◌≡◌, ◌+◌, true, cond, filter, length, take, Some, None, IfOk};
ghost use Rattle.std.specs.List.{find, flat_map};
ghost use Rattle.program_places.specs.Paths.{levels};
ghost use Rattle.program_files.specs.Files as among;
ghost use Rattle.program_files.specs.Faults.{levels_inside};
ghost use Rattle.program_entries.specs.Seen.{seen, seen_all};
ghost use Rattle.program_faults.specs.Read.{used_all};

use crate::files::UsedFiles;
use crate::own::is_definition;
use crate::paths::is_above;
use lists::Copying;
use program_entries::Entry;
use ruby_types::CPath;
use std::alloc::{AllocError, Global};

/// The front of a path with one name more than a path above it.
fn one_longer(alloc: Global, above: &CPath, path: &CPath) -> Result<CPath, AllocError>
    ensures { IfOk result (λ front. front ≡ take (length above.now + 1) path.now) }
{
    let names = path.as_slice();
    let length = above.len();
    if length < names.len() {
        CPath::from_slice(alloc, &names[..length + 1])
    } else {
        path.copy()
    }
}

fn sited(files: &UsedFiles<'_, '_>, path: CPath) -> Option<CPath>
    ensures { result ≡ cond (among.has_site (used_all files.now.files.now) path) (Some path) None }
{
    if files.has_site(&path) {
        Some(path)
    } else {
        None
    }
}

/// The first level of a path with a site inside this constant. Where a longer one has a site, so has the one with one
/// name more than the constant.
fn site_on_way(
    alloc: Global,
    files: &UsedFiles<'_, '_>,
    constant: &CPath,
    path: &CPath,
) -> Result<Option<CPath>, AllocError>
    ensures { IfOk result (λ site. site ≡ find (among.has_site (used_all files.now.files.now))
        (filter (among.is_above constant.now) (levels path.now))) }
{
    if is_above(constant.as_slice(), path.as_slice()) {
        Ok(sited(files, one_longer(alloc, constant, path)?))
    } else {
        Ok(None)
    }
}

/// The first constant with a site that an entry defines or passes through inside this one.
fn site_inside(
    alloc: Global,
    files: &UsedFiles<'_, '_>,
    constant: &CPath,
    entry: &Entry<'_>,
) -> Result<Option<CPath>, AllocError>
    ensures { IfOk result (λ site. site ≡ find (among.has_site (used_all files.now.files.now))
        (levels_inside constant.now (seen entry.now))) }
{
    if is_definition(entry) {
        site_on_way(alloc, files, constant, &entry.constant)
    } else {
        Ok(None)
    }
}

/// The first constant inside this one that has a site, in the order of the entries that define it or pass through it.
pub fn inner_site(
    alloc: Global,
    files: &UsedFiles<'_, '_>,
    constant: &CPath,
    entries: &[Entry<'_>],
) -> Result<Option<CPath>, AllocError>
    ensures { IfOk result (λ path. path ≡ find (among.has_site (used_all files.now.files.now))
        (flat_map (levels_inside constant.now) (seen_all entries.now))) }
{
    'places: for place in 0..entries.len() {
        let entry = &entries[place];
        match site_inside(alloc, files, constant, entry)? {
            Some(path) => return Ok(Some(path)),
            None => {}
        }
    }
    Ok(None)
}
