ghost use Rattle.std.specs.Prelude.{◌≡◌, ◌++◌, IfOk, OnOk};
ghost use Rattle.std.specs.List.{flat_map};
ghost use Rattle.ruby_types.specs.Paths as printed;
ghost use Rattle.tree_report.specs.Listing.{place_text, site_line, shadowed_line, site_of, IsInOrder, IsListing};

use outside::FilePath;
use plain_text::path_text;
use ruby_types::{CPath, Text};
use std::alloc::{AllocError, Global};

/// Where a constant is defined.
#[derive(Drop)]
pub enum Place {
    /// By a file.
    File(FilePath),
    /// By a file, and it is a namespace besides.
    Explicit(FilePath),
    /// By no file: it is a namespace alone.
    Namespace,
}

/// A constant's printed path and the place of its definition.
#[derive(Drop)]
pub struct ListedSite {
    pub constant: Text,
    pub place: Place,
}

impl ListedSite {
    /// The site of a constant at a place, with the constant's path as text, as `Admin::Post`.
    /// An error where memory runs out.
    pub fn new(alloc: Global, constant: &CPath, place: Place) -> Result<ListedSite, AllocError>
        ensures { IfOk result (λ site. site ≡ site_of constant.now place) }
    {
        Ok(ListedSite {
            constant: path_text(alloc, constant)?,
            place,
        })
    }
}

fn push_two(bytes: &mut Vec<u8>, first: &[u8], second: &[u8]) -> Result<(), AllocError>
    ensures { OnOk result (bytes.new.items ≡ bytes.old.items ++ (first.now ++ second.now)) }
{
    bytes.extend_from_slice(first)?;
    bytes.extend_from_slice(second)?;
    Ok(())
}

fn push_place(bytes: &mut Vec<u8>, place: &Place) -> Result<(), AllocError>
    ensures { OnOk result (bytes.new.items ≡ bytes.old.items ++ place_text place.now) }
{
    match place {
        Place::File(path) => push_two(bytes, b" file ", path.as_bytes()),
        Place::Explicit(path) => push_two(bytes, b" explicit ", path.as_bytes()),
        Place::Namespace => {
            bytes.extend_from_slice(b" namespace")?;
            Ok(())
        }
    }
}

fn push_site(bytes: &mut Vec<u8>, site: &ListedSite) -> Result<(), AllocError>
    ensures { OnOk result (bytes.new.items ≡ bytes.old.items ++ site_line site.now) }
{
    bytes.extend_from_slice(site.constant.as_bytes())?;
    push_place(bytes, &site.place)?;
    bytes.push(b'\n')?;
    Ok(())
}

fn push_sites(bytes: &mut Vec<u8>, sites: &[ListedSite]) -> Result<(), AllocError>
    ensures { OnOk result (bytes.new.items ≡ bytes.old.items ++ flat_map site_line sites.now) }
{
    'sites: for site in sites {
        push_site(bytes, site)?;
    }
    Ok(())
}

fn push_shadowed(bytes: &mut Vec<u8>, path: &[u8]) -> Result<(), AllocError>
    ensures { OnOk result (bytes.new.items ≡ bytes.old.items ++ shadowed_line path.now) }
{
    push_two(bytes, b"shadowed ", path)?;
    bytes.push(b'\n')?;
    Ok(())
}

fn push_all_shadowed(bytes: &mut Vec<u8>, paths: &[FilePath]) -> Result<(), AllocError>
    ensures { OnOk result (bytes.new.items ≡ bytes.old.items ++ flat_map shadowed_line paths.now) }
{
    'paths: for path in paths {
        push_shadowed(bytes, path.as_bytes())?;
    }
    Ok(())
}

fn sort_sites(sites: &mut Vec<ListedSite>) -> Result<(), AllocError>
    ensures { OnOk result (IsInOrder sites.old.items sites.new.items) }
{
    sites.sort_by(|first, second| first.constant.as_bytes().cmp(second.constant.as_bytes()))?;
    Ok(())
}

/// A line for each site, in the order of the printed paths by their bytes, then a line for each shadowed file.
pub fn print_listing(
    alloc: Global,
    sites: Vec<ListedSite>,
    shadowed: &[FilePath],
) -> Result<Vec<u8>, AllocError>
    ensures { IfOk result (λ bytes. IsListing sites.items shadowed.now bytes.items) }
{
    let mut listed = sites;
    sort_sites(&mut listed)?;
    let mut bytes = Vec::new(alloc);
    push_sites(&mut bytes, listed.as_slice())?;
    push_all_shadowed(&mut bytes, shadowed)?;
    Ok(bytes)
}
