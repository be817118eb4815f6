ghost use Rattle.std.specs.Prelude.{◌≡◌, ◌<◌, length, slice_get, Some, IfOk};
ghost use Rattle.std.specs.Option.{option_map};
ghost use Rattle.program_constants.specs.Constants.{first_place};
ghost use Rattle.program_owners.specs.declared.owned.Owned.{Owned as OwnedValue};
ghost use Rattle.program_owners.specs.Owned.{owned_paths, owner_in};

use crate::owned::Owned;
use lists::Copying;
use program_constants::ConstantTable;
use ruby_types::CPath;
use std::alloc::{AllocError, Global};
use std::marker::Model;

/// The owners of constants. Contracts see the rows that they were made of.
#[derive(Drop)]
pub struct Owners {
    owned: Vec<Owned>,
    table: ConstantTable,
}

impl Model for Owners {
    ghost use Rattle.std.specs.Prelude.{◌≡◌, List};
    ghost use Rattle.program_owners.specs.declared.owned.Owned.{Owned};

    ghost Value = { List Owned };

    ghost use Rattle.program_owners.specs.Owned.{owned_paths};

    ghost view = { λ o. o.owned.items };

    ghost invariant = { λ o. o.table ≡ owned_paths o.owned.items };
}

fn paths_of(alloc: Global, owned: &[Owned]) -> Result<Vec<CPath>, AllocError>
    ensures { IfOk result (λ paths. paths.items ≡ owned_paths owned.now) }
{
    let mut paths = Vec::new(alloc);
    'rows: for row in owned {
        paths.push(row.path.copy()?)?;
    }
    Ok(paths)
}

fn file_at(owned: &[Owned], place: u32) -> u32
    requires { place < length owned.now }
    ensures { (owner : OwnedValue) → slice_get owned.now place ≡ Some owner → result ≡ owner.file }
{
    owned[place as usize].file
}

impl Owners {
    /// The owners that these rows tell. An error where memory runs out.
    pub fn new(alloc: Global, owned: Vec<Owned>) -> Result<Owners, AllocError>
        ensures { IfOk result (λ owners. owners ≡ owned.items) }
    {
        let paths = paths_of(alloc, owned.as_slice())?;
        // (the files of an application have fewer bytes, so that they define fewer constants)
        if paths.len() > u32::MAX as usize {
            return Err(AllocError);
        }
        let table = ConstantTable::new(alloc, paths)?;
        Ok(Owners { owned, table })
    }

    /// The place of a constant's first row, if it has one.
    pub fn place_of(&self, path: &CPath) -> Option<u32>
        ensures { result ≡ first_place path.now (owned_paths self.now) }
    {
        self.table.first(path)
    }

    /// The file of the row at this place, if there is one.
    pub fn file_at(&self, place: u32) -> Option<u32>
        ensures { result ≡ option_map (λ o. o.file) (slice_get self.now place) }
    {
        match self.owned.as_slice().get(place as usize) {
            Some(row) => Some(row.file),
            None => None,
        }
    }

    /// The file that owns a constant, if one does.
    pub fn owner_of(&self, path: &CPath) -> Option<u32>
        ensures { result ≡ owner_in path.now self.now }
    {
        match self.table.first(path) {
            None => None,
            Some(place) => Some(file_at(self.owned.as_slice(), place)),
        }
    }
}
