ghost use Rattle.std.specs.Prelude.{◌≡◌, ◌≢◌, ◌<◌, ◌^◌, [], length, IfOk};
ghost use Rattle.program_constants.specs.Constants.{first_place, has_site_among, is_namespace_among, numbered_from};
ghost use Rattle.program_constants.specs.Constants.{has_inside};

use lists::Copying;
use ruby_types::CPath;
use std::alloc::{AllocError, Global};
use std::marker::Model;
use tree_scan_sites::{Site, SiteTable, Spelled};

/// Constants in a list, which is what contracts see of them.
#[derive(Drop)]
pub struct ConstantTable {
    constants: Vec<CPath>,
    table: SiteTable,
}

impl Model for ConstantTable {
    ghost use Rattle.std.specs.Prelude.{List};
    ghost use Rattle.program_places.specs.Paths.{Path};

    ghost Value = { List Path };

    ghost use Rattle.std.specs.List.Sorted.{IsPermutation};
    ghost use Rattle.program_constants.specs.Constants.{numbered_from};

    ghost view = { λ t. t.constants.items };

    ghost invariant = { λ t. IsPermutation (numbered_from 0 t.constants.items) t.table };
}

/// The constants with their places as the numbers of files.
fn numbered(alloc: Global, constants: &[CPath]) -> Result<Vec<Spelled>, AllocError>
    requires { length constants.now < 2 ^ 32 }
    ensures { IfOk result (λ spelled. spelled.items ≡ numbered_from 0 constants.now) }
{
    let mut spelled = Vec::new(alloc);
    'places: for place in 0..constants.len() {
        spelled.push(Spelled {
            constant: constants[place].copy()?,
            root: 0,
            file: place as u32,
        })?;
    }
    Ok(spelled)
}

/// Whether something stands inside a constant with this site.
fn has_inside(site: Option<Site>) -> bool
    ensures { result ≡ has_inside site }
{
    match site {
        None | Some(Site::File(_)) => false,
        Some(Site::Explicit(_)) | Some(Site::Namespace) => true,
    }
}

impl ConstantTable {
    /// The table of a list of constants, fewer than 2^32. An error where memory runs out.
    pub fn new(alloc: Global, constants: Vec<CPath>) -> Result<ConstantTable, AllocError>
        requires { length constants.items < 2 ^ 32 }
        ensures { IfOk result (λ table. table ≡ constants.items) }
    {
        let spelled = numbered(alloc, constants.as_slice())?;
        let table = SiteTable::new(alloc, spelled)?;
        Ok(ConstantTable { constants, table })
    }

    /// The constants in their order.
    pub fn constants(&self) -> &[CPath]
        ensures { result.now ≡ self.now }
    {
        self.constants.as_slice()
    }

    /// The place of the first constant with this path.
    pub fn first(&self, path: &CPath) -> Option<u32>
        ensures { result ≡ first_place path.now self.now }
    {
        self.table.file_of(path)
    }

    /// Whether the path is one of the constants, or stands above one. Object's is neither.
    pub fn has_site(&self, path: &CPath) -> bool
        ensures { result ≡ has_site_among self.now path.now }
    {
        self.table.site(path).is_some()
    }

    /// Whether the path stands above one of the constants. Object's isn't asked for.
    pub fn is_namespace(&self, path: &CPath) -> bool
        requires { path.now ≢ [] }
        ensures { result ≡ is_namespace_among self.now path.now }
    {
        has_inside(self.table.site(path))
    }
}
