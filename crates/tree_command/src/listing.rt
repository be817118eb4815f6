ghost use Rattle.std.specs.Prelude.{IfOk, IfErr};
ghost use Rattle.tree_report.specs.Limits.{IsWithinLimits};
ghost use Rattle.tree_command.specs.Tree.{IsTreeListing, IsTreeFault, IsSiteListing};

use crate::fault::ListingFault;
use crate::rows::listed_sites;
use outside::{FileEntry, Snapshot};
use std::alloc::{AllocError, Global};
use tree_report::{Refusal, exceeded_limit, print_listing, read_configuration};
use tree_scan::{Sites, scan};

/// The lines of the sites.
fn print_sites(alloc: Global, files: &[FileEntry], sites: &Sites) -> Result<Vec<u8>, AllocError>
    ensures { IfOk result (λ bytes. IsSiteListing files.now sites.now bytes.items) }
{
    let listed = listed_sites(alloc, files, sites.rows())?;
    print_listing(alloc, listed, sites.shadowed().as_slice())
}

/// The listing of an application within the limits.
fn list_within(alloc: Global, snapshot: &Snapshot) -> Result<Vec<u8>, ListingFault>
    requires { IsWithinLimits snapshot.now.files }
    ensures listing { IfOk result (λ bytes. IsTreeListing snapshot.now.files bytes.items) }
    ensures fault { IfErr result (IsTreeFault snapshot.now.files) }
{
    let files = snapshot.files.as_slice();
    let config = read_configuration(alloc, files)?;
    match scan(alloc, snapshot, &config) {
        Ok(sites) => Ok(print_sites(alloc, files, &sites)?),
        Err(fault) => Err(ListingFault::from(fault)),
    }
}

/// A line for each constant of the application, in the order of their printed paths, and one for each shadowed file.
pub fn list_tree(alloc: Global, snapshot: &Snapshot) -> Result<Vec<u8>, ListingFault>
    ensures listing { IfOk result (λ bytes. IsTreeListing snapshot.now.files bytes.items) }
    ensures fault { IfErr result (IsTreeFault snapshot.now.files) }
{
    match exceeded_limit(snapshot.files.as_slice()) {
        Some(exceeded) => Err(ListingFault::Refused(Refusal::Limit(exceeded))),
        None => list_within(alloc, snapshot),
    }
}
