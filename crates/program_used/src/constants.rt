ghost use Rattle.std.specs.Prelude.{◌≡◌, ◌++◌, [], ◌∷◌, List, ℕ, Contains, All, None, Some, replicate, set, IfOk, OnOk};
ghost use Rattle.tree_scan_sites.specs.declared.spelled.Site.{Site as SiteValue};
ghost use Rattle.tree_scan_sites.specs.Listed.{Lists};
ghost use Rattle.program_used.specs.Constants as spec;
ghost use Rattle.program_used.specs.Constants.{AreConstants, file_in, put_at};

use lists::Copying;
use ruby_types::CPath;
use std::alloc::{AllocError, Global};
use tree_scan::{Site, SiteRow, Sites};

/// No constant, for so many files.
fn no_constants(alloc: Global, files: usize) -> Result<Vec<Option<CPath>>, AllocError>
    ensures { IfOk result (λ constants. constants.items ≡ replicate files None) }
{
    let mut constants = Vec::new(alloc);
    'files: for place in 0..files {
        let _ = place;
        constants.push(None)?;
    }
    Ok(constants)
}

fn file_in(site: Site) -> Option<u32>
    ensures { result ≡ file_in site }
{
    match site {
        Site::File(file) | Site::Explicit(file) => Some(file),
        Site::Namespace => None,
    }
}

fn put(constants: &mut Vec<Option<CPath>>, file: u32, path: CPath)
    ensures { constants.new.items ≡ set constants.old.items file (Some path) }
{
    if (file as usize) < constants.len() {
        constants[file as usize] = Some(path);
    }
}

/// Puts the constant of a row at the number of its file.
fn put_row(constants: &mut Vec<Option<CPath>>, row: &SiteRow) -> Result<(), AllocError>
    ensures { OnOk result (constants.new.items ≡ put_at constants.old.items (file_in row.now.site) row.now.path) }
{
    match file_in(row.site) {
        None => Ok(()),
        Some(file) => {
            put(constants, file, row.path.copy()?);
            Ok(())
        }
    }
}

/// Puts the constants of rows at the numbers of their files.
fn put_rows(constants: &mut Vec<Option<CPath>>, rows: &[SiteRow]) -> Result<(), AllocError>
    ensures { OnOk result (constants.new.items ≡ spec.put_rows constants.old.items rows.now) }
{
    let mut left = rows;
    'rows: while let [row, behind @ ..] = left {
        put_row(constants, row)?;
        left = behind;
    }
    Ok(())
}

/// The constant of each of so many files, by these sites. An error where memory runs out.
pub fn used_constants(
    alloc: Global,
    sites: &Sites,
    files: usize,
) -> Result<Vec<Option<CPath>>, AllocError>
    ensures { IfOk result (λ constants. AreConstants sites.now.spelled files constants.items) }
{
    let mut constants = no_constants(alloc, files)?;
    put_rows(&mut constants, sites.rows())?;
    Ok(constants)
}
