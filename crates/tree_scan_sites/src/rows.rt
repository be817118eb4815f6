ghost use Rattle.std.specs.Prelude.{◌≡◌, ◌++◌, length, IfOk, OnOk};
ghost use Rattle.std.specs.List.Sorted.{IsSorted, IsSearchInRange, IsBinarySearchResult};
ghost use Rattle.tree_scan_sites.specs.Paths.{path_order};
ghost use Rattle.tree_scan_sites.specs.Listed.{spelled_order};
ghost use Rattle.tree_scan_sites.specs.Rows.{children_run, site_of};
ghost use Rattle.tree_scan_sites.specs.Rows as spec;

use crate::compare::compare_paths;
use crate::search::file_in;
use crate::spelled::{Names, Site, SiteRow, Spelled};
use lists::{Copying, Text};
use ruby_types::CPath;
use std::alloc::{AllocError, Global};
use std::cmp::Ordering;

/// Adds the last name of a path that begins with a front of so many names, where it has one name more.
fn add_child(names: &mut Names, front: usize, path: &[Text]) -> Result<(), AllocError>
    ensures { OnOk result (names.new ≡ names.old ++ spec.last_behind front path.now) }
{
    match path {
        [above @ .., last] if above.len() == front => names.push(last.copy()?),
        _ => Ok(()),
    }
}

/// The names right behind a path with so many names, given the paths that follow it: those that begin with it are the
/// ones up to the first that has no more names.
pub(crate) fn children_in(alloc: Global, front: usize, paths: &[CPath]) -> Result<Names, AllocError>
    ensures { IfOk result (λ names. names ≡ children_run front paths.now) }
{
    let mut names = Names::new(alloc);
    'paths: for path in paths {
        if path.len() <= front {
            return Ok(names);
        }
        add_child(&mut names, front, path.as_slice())?;
    }
    Ok(names)
}

fn site_of(file: Option<u32>, alone: bool) -> Site
    ensures { result ≡ site_of file alone }
{
    match file {
        None => Site::Namespace,
        Some(file) if alone => Site::File(file),
        Some(file) => Site::Explicit(file),
    }
}

/// The row of a path that these paths follow.
fn row_of(
    alloc: Global,
    spelled: &[Spelled],
    path: &CPath,
    behind: &[CPath],
) -> Result<SiteRow, AllocError>
    requires { IsSorted spelled_order spelled.now }
    ensures { IfOk result (λ row. row ≡ spec.row_of spelled.now path.now behind.now) }
{
    let children = children_in(alloc, path.len(), behind)?;
    let site = site_of(file_in(spelled, path.as_slice()), children.is_empty());
    Ok(SiteRow {
        path: path.copy()?,
        site,
        children,
    })
}

/// The row of each path.
pub(crate) fn rows_of(
    alloc: Global,
    spelled: &[Spelled],
    paths: &[CPath],
) -> Result<Vec<SiteRow>, AllocError>
    requires { IsSorted spelled_order spelled.now }
    ensures { IfOk result (λ rows. rows.items ≡ spec.rows_of spelled.now paths.now) }
{
    let mut rows = Vec::new(alloc);
    let mut left = paths;
    'paths: while let [path, behind @ ..] = left {
        rows.push(row_of(alloc, spelled, path, behind)?)?;
        left = behind;
    }
    Ok(rows)
}

/// The place of the row with this path, or where such a row would stand.
pub(crate) fn place_in(rows: &[SiteRow], path: &[Text]) -> Result<usize, usize>
    ensures bound { IsSearchInRange result (length rows.now) }
    ensures position { IsBinarySearchResult (λ row. path_order row.path path.now) rows.now result }
{
    rows.binary_search_by(
        |row: &SiteRow| -> Ordering
            ensures { result ≡ path_order row.now.path path.entry.now }
        { compare_paths(row.path.as_slice(), path) },
    )
}
