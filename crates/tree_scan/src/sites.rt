ghost use Rattle.std.specs.Prelude.{◌≡◌, ◌↔◌, ℕ, List, Contains, All, AllPairs, IfSome, IfNone};
ghost use Rattle.tree_scan_sites.specs.declared.spelled.Site.{Site as SiteValue};
ghost use Rattle.tree_scan_sites.specs.Sites.{IsSite, IsFileOf, ListsChildren};
ghost use Rattle.tree_scan_sites.specs.Listed.{Lists};
ghost use Rattle.tree_scan_sites.specs.Rows.{paths_of_rows};
ghost use Rattle.tree_scan_sites.specs.Paths.{IsBeforePath};

use lists::Listed;
use outside::FilePath;
use ruby_types::CPath;
use std::marker::Model;
use tree_scan_sites::{Names, Site, SiteRow, SiteTable};

/// Paths of files.
pub type FilePaths = Listed<FilePath>;

/// What stands for the constants of an application. A file is told by its place in the snapshot. No call takes memory.
#[derive(Drop)]
pub struct Sites {
    table: SiteTable,
    shadowed: FilePaths,
}

impl Model for Sites {
    ghost use Rattle.tree_scan.specs.Scanned.{Scanned};

    ghost Value = { Scanned };

    ghost view = { λ s. record { spelled = s.table; shadowed = s.shadowed } };
}

impl Sites {
    pub(crate) fn of(table: SiteTable, shadowed: FilePaths) -> Sites
        ensures spelled { result.spelled ≡ table }
        ensures shadowed { result.shadowed ≡ shadowed }
    {
        Sites { table, shadowed }
    }

    /// A row for each constant with a site, in the order of their paths.
    pub fn rows(&self) -> &[SiteRow]
        ensures sites { All (λ row. IsSite (Lists self.now.spelled) row.path row.site) result.now }
        ensures children { All (λ row. ListsChildren (Lists self.now.spelled) row.path row.children) result.now }
        ensures complete { (path : List (List ℕ)) (site : SiteValue) → IsSite (Lists self.now.spelled) path site →
            Contains (paths_of_rows result.now) path }
        ensures rising { AllPairs (λ row later. IsBeforePath row.path later.path) result.now }
    {
        self.table.rows()
    }

    /// What stands for the constant with this path. Object, which has no name, has no site.
    pub fn site(&self, path: &CPath) -> Option<Site>
        ensures found { IfSome result (IsSite (Lists self.now.spelled) path.now) }
        ensures none { IfNone result ((site : SiteValue) → ¬ IsSite (Lists self.now.spelled) path.now site) }
    {
        self.table.site(path)
    }

    /// The names of the constants inside this one that have a site, in the order of their bytes. Those inside Object,
    /// whose path is empty, are the top constants.
    pub fn children(&self, path: &CPath) -> &Names
        ensures { ListsChildren (Lists self.now.spelled) path.now result.now }
    {
        self.table.children(path)
    }

    /// The file that defines a constant: of those that spell it the first by root order, and then by path.
    pub fn file_of(&self, path: &CPath) -> Option<u32>
        ensures found { IfSome result (IsFileOf (Lists self.now.spelled) path.now) }
        ensures none { IfNone result ((file : ℕ) → ¬ IsFileOf (Lists self.now.spelled) path.now file) }
    {
        self.table.file_of(path)
    }

    /// The paths of the files that spell a constant and aren't its file, in the order of their bytes.
    pub fn shadowed(&self) -> &FilePaths
        ensures { result.now ≡ self.now.shadowed }
    {
        &self.shadowed
    }
}
