ghost use Rattle.std.specs.Prelude.{◌≡◌, ◌↔◌, List, slice_get, IsTrue, IfOk, IfErr};
ghost use Rattle.std.specs.Option.{option_map};
ghost use Rattle.outside.specs.Tree.{stamps_of};
ghost use Rattle.program_places.specs.Paths.{Name, Path};
ghost use Rattle.program_used.specs.Rows.{AreUsed};
ghost use Rattle.program_snapshots.specs.Refusals.{IsRefusal};
ghost use Rattle.program_snapshots.specs.Sited.{IsSited};
ghost use Rattle.program_texts.specs.Read.{AreReadOf};
ghost use Rattle.program_tables.specs.Resolved.{IsResolved};
ghost use Rattle.program_index.specs.Content.{files_of};
ghost use Rattle.program_index.specs.Program as spec;
ghost use Rattle.program_index.specs.Program.{IsProgram};

use crate::reading::{fault_in, outcome_at, tasks_in, tree_at, unless};
use crate::tables::FileTables;
use app_config::Config;
use outside::{FileBytes, FilePath, Snapshot, Stamp, Stamps};
use program_outcomes::Tasks;
use program_snapshots::{ProgramFault, Sited, are_stamps_of, site};
use program_standing::Resolved;
use program_texts::read_texts;
use program_used::UsedText;
use ruby_types::{CPath, FileTree, RubyError, Text};
use std::alloc::{AllocError, Global};
use std::marker::Model;
use tree_scan::Sites;

type CPaths = lists::Listed<CPath>;

/// One generation of an application, which contracts see as its content.
#[derive(Drop)]
pub struct Program {
    pub(crate) snapshot: Snapshot,
    pub(crate) config: Config,
    pub(crate) sites: Sites,
    pub(crate) texts: Vec<Option<UsedText>>,
    pub(crate) tables: FileTables,
}

impl Model for Program {
    ghost use Rattle.std.specs.Coded.{codes};
    ghost use Rattle.program_index.specs.Content.{Content};
    ghost use Rattle.program_used.specs.contracts.used.UsedText as used;
    ghost use Rattle.ruby_types.specs.contracts.tree.Expr as expr;
    ghost use Rattle.ruby_types.specs.contracts.tree.Part as part;
    ghost use Rattle.ruby_types.specs.contracts.tree.Stmt as stmt;

    ghost Value = { Content };

    ghost coded = { Prim.hlevel
        (codes, used.the_row.coded, expr.the_row.coded, part.the_row.coded, stmt.the_row.coded) };

    ghost use Rattle.program_index.specs.Content.{files_of};
    ghost use Rattle.program_index.specs.Program.{IsProgram};
    ghost use Rattle.program_index.specs.Tables.{AreTablesOf, content_of};

    ghost view = { λ p. content_of p.snapshot.files p.config p.sites p.texts.items p.tables.nodes };

    ghost invariant = { λ p.
        IsProgram p.snapshot.files (content_of p.snapshot.files p.config p.sites p.texts.items p.tables.nodes)
        × AreTablesOf (files_of (content_of p.snapshot.files p.config p.sites p.texts.items p.tables.nodes)) p.tables };
}

impl Program {
    /// The program of a sited snapshot whose files have these texts. An error where memory or numbers run out.
    fn of(alloc: Global, sited: Sited, texts: Vec<Option<UsedText>>) -> Result<Program, AllocError>
        requires sited { IsSited sited.snapshot.files sited }
        requires used { AreUsed sited.constants.items texts.items }
        requires read { AreReadOf sited.snapshot.files texts.items }
        ensures { IfOk result (IsProgram sited.snapshot.files) }
    {
        let tables = FileTables::of(alloc, sited.snapshot.files.as_slice(), texts.as_slice())?;
        let Sited {
            snapshot,
            config,
            sites,
            ..
        } = sited;
        Ok(Program {
            snapshot,
            config,
            sites,
            texts,
            tables,
        })
    }

    /// The program of a snapshot, or why it has none: a limit, else a line of the configuration, else the names of the
    /// files; or want of memory. The snapshot is dropped where there is none.
    pub fn build(alloc: Global, snapshot: Snapshot) -> Result<Program, ProgramFault>
        ensures program { IfOk result (IsProgram snapshot.files) }
        ensures refusal { IfErr result (IsRefusal snapshot.files) }
    {
        let sited = site(alloc, snapshot)?;
        let texts = read_texts(
            alloc,
            sited.snapshot.files.as_slice(),
            sited.constants.as_slice(),
        )?;
        Ok(Program::of(alloc, sited, texts)?)
    }

    /// A program is that of its files.
    pub fn is_of_its_files(&self)
        ensures { IsProgram self.now.files self.now }
    {
        let _ = &self.snapshot;
    }

    /// The snapshot that it was built of.
    pub fn snapshot(&self) -> &Snapshot
        ensures { result.now.files ≡ self.now.files }
    {
        &self.snapshot
    }

    /// What the configuration says.
    pub fn config(&self) -> &Config
        ensures { result.now ≡ self.now.config }
    {
        &self.config
    }

    /// The constants that the files spell.
    pub fn sites(&self) -> &Sites
        ensures { result.now ≡ self.now.sites }
    {
        &self.sites
    }

    /// The path of the file at this place.
    pub fn path_of(&self, file: u32) -> Option<&FilePath>
        ensures { option_map (λ path. path.now) result ≡ option_map (λ f. f.path) (slice_get self.now.files file) }
    {
        match self.snapshot.files.as_slice().get(file as usize) {
            Some(entry) => Some(&entry.path),
            None => None,
        }
    }

    /// The contents of the file at this place.
    pub fn bytes_of(&self, file: u32) -> Option<&FileBytes>
        ensures { option_map (λ bytes. bytes.now) result ≡ option_map (λ f. f.bytes) (slice_get self.now.files file) }
    {
        match self.snapshot.files.as_slice().get(file as usize) {
            Some(entry) => Some(&entry.bytes),
            None => None,
        }
    }

    /// The stamp of the file at this place.
    pub fn stamp_of(&self, file: u32) -> Option<Stamp>
        ensures { result ≡ option_map (λ f. f.stamp) (slice_get self.now.files file) }
    {
        match self.snapshot.files.as_slice().get(file as usize) {
            Some(entry) => Some(entry.stamp),
            None => None,
        }
    }

    /// Whether these are the paths and stamps of the files, in their order.
    pub fn stamps_equal(&self, stamps: &Stamps) -> bool
        ensures { IsTrue result ↔ (stamps.now ≡ stamps_of self.now.files) }
    {
        are_stamps_of(stamps.as_slice(), self.snapshot.files.as_slice())
    }

    /// The fault of the file at this place. None where it has none or isn't used.
    pub fn fault_of(&self, file: u32) -> Option<&RubyError>
        ensures { option_map (λ fault. fault.now) result ≡ spec.fault_of self.now file }
    {
        fault_in(outcome_at(self.tables.outcomes.as_slice(), file))
    }

    /// The tasks of the file at this place. None where it isn't used.
    pub fn tasks_of_file(&self, file: u32) -> &Tasks
        ensures { result.now ≡ spec.tasks_of self.now file }
    {
        tasks_in(
            outcome_at(self.tables.outcomes.as_slice(), file),
            &self.tables.none,
        )
    }

    /// The tree of the file at this place, where it is used and not at fault.
    pub fn tree_of(&self, file: u32) -> Option<&FileTree>
        ensures { option_map (λ tree. tree.now) result ≡ spec.tree_of self.now file }
    {
        unless(self.fault_of(file), tree_at(self.texts.as_slice(), file))
    }

    /// What a bare name is found as in lexical scopes, innermost first, and at the top level. A scope whose file is at
    /// fault ends the search with that fault. An error where memory runs out.
    pub fn resolve(
        &self,
        alloc: Global,
        scopes: &CPaths,
        name: &Text,
    ) -> Result<Resolved, AllocError>
        ensures { IfOk result (IsResolved (files_of self.now) scopes.now name.now) }
    {
        self.tables
            .standings
            .resolve(alloc, scopes.as_slice(), name)
    }
}
