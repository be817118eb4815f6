ghost use Rattle.std.specs.Prelude.{◌≡◌, is_some, slice_get, IfOk};
ghost use Rattle.std.specs.Option.{option_map};
ghost use Rattle.program_constants.specs.Constants.{first_place, has_site_among};
ghost use Rattle.program_owners.specs.Owned.{owned_paths};
ghost use Rattle.program_standing.specs.Tables.{standing_by, standing_of, is_faulty};

use crate::standing::Standing;
use program_constants::ConstantTable;
use program_owners::{Owned, Owners};
use ruby_types::CPath;
use std::alloc::{AllocError, Global};
use std::marker::Model;

/// What stands at the constant paths of an application. Contracts see the tables that it was made of.
#[derive(Drop)]
pub struct Standings {
    owners: Owners,
    spelled: ConstantTable,
    at_fault: Vec<bool>,
}

impl Model for Standings {
    ghost use Rattle.program_standing.specs.Tables.{Tables};

    ghost Value = { Tables };

    ghost view = { λ s. record { owned = s.owners; spelled = s.spelled; at_fault = s.at_fault.items } };
}

fn standing_by(owner: Option<u32>, has_site: bool) -> Standing
    ensures { result ≡ standing_by owner has_site }
{
    match owner {
        Some(file) => Standing::Owned(file),
        None => {
            if has_site {
                Standing::Implicit
            } else {
                Standing::Missing
            }
        }
    }
}

impl Standings {
    /// The tables of the constants that files own, of those that they spell, and of the marks of files at fault. An
    /// error where memory runs out.
    pub fn new(
        alloc: Global,
        owned: Vec<Owned>,
        spelled: Vec<CPath>,
        at_fault: Vec<bool>,
    ) -> Result<Standings, AllocError>
        ensures { IfOk result (λ s. s ≡ record {
          owned = owned.items;
          spelled = spelled.items;
          at_fault = at_fault.items;
        }) }
    {
        // (an application has 4,096 files at most)
        if spelled.len() > u32::MAX as usize {
            return Err(AllocError);
        }
        Ok(Standings {
            owners: Owners::new(alloc, owned)?,
            spelled: ConstantTable::new(alloc, spelled)?,
            at_fault,
        })
    }

    /// What stands at a path.
    pub fn standing(&self, path: &CPath) -> Standing
        ensures { result ≡ standing_of self.now path.now }
    {
        standing_by(self.owners.owner_of(path), self.spelled.has_site(path))
    }

    /// The place of a constant's first row among those that files own, if it has one.
    pub fn place_of(&self, path: &CPath) -> Option<u32>
        ensures { result ≡ first_place path.now (owned_paths self.now.owned) }
    {
        self.owners.place_of(path)
    }

    /// The file of the row at this place, if there is one.
    pub fn file_at(&self, place: u32) -> Option<u32>
        ensures { result ≡ option_map (λ o. o.file) (slice_get self.now.owned place) }
    {
        self.owners.file_at(place)
    }

    /// Whether a file spells the path or a constant inside it.
    pub fn has_site(&self, path: &CPath) -> bool
        ensures { result ≡ has_site_among self.now.spelled path.now }
    {
        self.spelled.has_site(path)
    }

    /// Whether a file spells the path.
    pub fn has_file(&self, path: &CPath) -> bool
        ensures { result ≡ is_some (first_place path.now self.now.spelled) }
    {
        self.spelled.first(path).is_some()
    }

    /// Whether the file of this number is at fault.
    pub fn is_faulty(&self, file: u32) -> bool
        ensures { result ≡ is_faulty self.now file }
    {
        match self.at_fault.as_slice().get(file as usize) {
            Some(mark) => *mark,
            None => false,
        }
    }
}
