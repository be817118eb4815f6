ghost use Rattle.std.specs.Prelude.{◌≡◌, ◌↔◌, ℕ, List, Contains, All, AllPairs, IfOk, IfSome, IfNone};
ghost use Rattle.std.specs.List.Sorted.{IsPermutation, IsStrictlyIncreasing};
ghost use Rattle.tree_scan_sites.specs.declared.spelled.Site.{Site};
ghost use Rattle.tree_scan_sites.specs.Sites.{IsSite, IsFileOf, IsShadowed, ListsChildren};
ghost use Rattle.tree_scan_sites.specs.Listed.{Lists};
ghost use Rattle.tree_scan_sites.specs.Rows.{paths_of_rows};
ghost use Rattle.tree_scan_sites.specs.Paths.{IsBeforePath};

use crate::prefixes::paths_of;
use crate::rows::{children_in, place_in, rows_of};
use crate::search::{file_in, put_in_order};
use crate::shadows::shadowed_in;
use crate::spelled::{Names, Site, SiteRow, Spelled};
use ruby_types::CPath;
use std::alloc::{AllocError, Global};
use std::marker::Model;

/// The sites of the constants that a list of spellings has, by constant path.
#[derive(Drop)]
pub struct SiteTable {
    spelled: Vec<Spelled>,
    rows: Vec<SiteRow>,
    /// The children of Object.
    top: Names,
    /// The children of a path without a row.
    none: Names,
    shadowed: Vec<u32>,
}

impl Model for SiteTable {
    ghost use Rattle.std.specs.Prelude.{List};
    ghost use Rattle.tree_scan_sites.specs.declared.spelled.Spelled.{Spelled};

    ghost Value = { List Spelled };

    ghost use Rattle.tree_scan_sites.specs.Table.{IsTable};

    ghost view = { λ t. t.spelled.items };

    ghost invariant = { λ t. IsTable t.spelled.items t.rows.items t.top t.none t.shadowed.items };
}

impl SiteTable {
    /// The table of a list of spellings. Contracts see it as that list in another order.
    pub fn new(alloc: Global, spelled: Vec<Spelled>) -> Result<SiteTable, AllocError>
        ensures { IfOk result (λ table. IsPermutation spelled.items table) }
    {
        let mut spelled = spelled;
        put_in_order(&mut spelled)?;
        let paths = paths_of(alloc, spelled.as_slice())?;
        let rows = rows_of(alloc, spelled.as_slice(), paths.as_slice())?;
        let top = children_in(alloc, 0, paths.as_slice())?;
        let shadowed = shadowed_in(alloc, spelled.as_slice())?;
        Ok(SiteTable {
            spelled,
            rows,
            top,
            none: Names::new(alloc),
            shadowed,
        })
    }

    /// The spellings, by constant, then by root, then by file.
    pub fn spelled(&self) -> &[Spelled]
        ensures { result.now ≡ self.now }
    {
        self.spelled.as_slice()
    }

    /// A row for each constant with a site, in the order of their paths.
    pub fn rows(&self) -> &[SiteRow]
        ensures sites { All (λ row. IsSite (Lists self.now) row.path row.site) result.now }
        ensures children { All (λ row. ListsChildren (Lists self.now) row.path row.children) result.now }
        ensures complete { (path : List (List ℕ)) (site : Site) → IsSite (Lists self.now) path site →
            Contains (paths_of_rows result.now) path }
        ensures rising { AllPairs (λ row later. IsBeforePath row.path later.path) result.now }
    {
        self.rows.as_slice()
    }

    /// What stands for the constant with this path. Object, which has no name, has no site.
    pub fn site(&self, path: &CPath) -> Option<Site>
        ensures found { IfSome result (IsSite (Lists self.now) path.now) }
        ensures none { IfNone result ((site : Site) → ¬ IsSite (Lists self.now) path.now site) }
    {
        match place_in(self.rows.as_slice(), path.as_slice()) {
            Ok(place) => Some(self.rows[place].site),
            Err(_) => None,
        }
    }

    /// The names of the constants inside this one that have a site, in the order of their bytes. Those inside Object,
    /// whose path is empty, are the top constants.
    pub fn children(&self, path: &CPath) -> &Names
        ensures { ListsChildren (Lists self.now) path.now result.now }
    {
        if path.is_empty() {
            return &self.top;
        }
        match place_in(self.rows.as_slice(), path.as_slice()) {
            Ok(place) => &self.rows[place].children,
            Err(_) => &self.none,
        }
    }

    /// The file of a constant: the first by root and file among those that spell it.
    pub fn file_of(&self, path: &CPath) -> Option<u32>
        ensures found { IfSome result (IsFileOf (Lists self.now) path.now) }
        ensures none { IfNone result ((file : ℕ) → ¬ IsFileOf (Lists self.now) path.now file) }
    {
        file_in(self.spelled.as_slice(), path.as_slice())
    }

    /// The files that spell a constant and aren't its file, rising.
    pub fn shadowed(&self) -> &[u32]
        ensures exact { (file : ℕ) → Contains result.now file ↔ IsShadowed (Lists self.now) file }
        ensures rising { IsStrictlyIncreasing result.now }
    {
        self.shadowed.as_slice()
    }
}
