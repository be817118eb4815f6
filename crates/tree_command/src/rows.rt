ghost use Rattle.std.specs.Prelude.{◌≡◌, ◌++◌, ◌∷◌, [], map, IfOk, OnOk};
ghost use Rattle.tree_scan.specs.Sites.{path_at};
ghost use Rattle.tree_command.specs.Tree.{place_of, listed};

use lists::Copying;
use outside::{FileEntry, FilePath};
use std::alloc::{AllocError, Global};
use tree_report::{ListedSite, Place};
use tree_scan_sites::{Site, SiteRow};

fn path_at(alloc: Global, files: &[FileEntry], number: u32) -> Result<FilePath, AllocError>
    ensures { IfOk result (λ path. path ≡ path_at files.now number) }
{
    match files.get(number as usize) {
        Some(file) => file.path.copy(),
        None => Ok(FilePath::new(alloc)),
    }
}

fn place_of(alloc: Global, files: &[FileEntry], site: Site) -> Result<Place, AllocError>
    ensures { IfOk result (λ place. place ≡ place_of files.now site) }
{
    match site {
        Site::File(number) => Ok(Place::File(path_at(alloc, files, number)?)),
        Site::Explicit(number) => Ok(Place::Explicit(path_at(alloc, files, number)?)),
        Site::Namespace => Ok(Place::Namespace),
    }
}

fn add_site(sites: &mut Vec<ListedSite>, site: ListedSite) -> Result<(), AllocError>
    ensures { OnOk result (sites.new.items ≡ sites.old.items ++ site ∷ []) }
{
    sites.push(site)?;
    Ok(())
}

/// The sites as they are listed.
pub(crate) fn listed_sites(
    alloc: Global,
    files: &[FileEntry],
    rows: &[SiteRow],
) -> Result<Vec<ListedSite>, AllocError>
    ensures { IfOk result (λ sites. sites.items ≡ map (listed files.now) rows.now) }
{
    let mut sites = Vec::new(alloc);
    'rows: for row in rows {
        let place = place_of(alloc, files, row.site)?;
        add_site(&mut sites, ListedSite::new(alloc, &row.path, place)?)?;
    }
    Ok(sites)
}
