ghost use Rattle.std.specs.Prelude.{◌≡◌, ◌↔◌, ◌⊎◌, ◌+◌, [], ◌∷◌, map, length, All, Some, None, cond, is_some, refl};
ghost use Rattle.std.specs.Prelude.{IsTrue};
ghost use Rattle.std.specs.Prelude.{IfOk, OnOk, OnErr};
ghost use Rattle.outside.specs.Faults.{Counts};
ghost use Rattle.outside.specs.Told.{appended};
ghost use Rattle.outside.specs.Calls.{IsDue};
ghost use Rattle.outside.specs.Watched.{IsWatched, ListsWatched};
ghost use Rattle.outside.specs.Order.{Rising};
ghost use Rattle.outside.specs.Tree.{Given, AgreesOnStamps, HoldsWatched, IsSized, paths_of, stamps_of};
ghost use Rattle.outside.specs.Table.{HasPath};
ghost use Rattle.outside.specs.MemTree.{Writes, empty_tree, with_held, with_other, without_path, after_giving};
ghost use Rattle.outside.specs.StampsAns.{stamps_failed, stamps_given, StampsAreWatched, StampsAreOf, after_stamps};
ghost use Rattle.outside.specs.TreeAns.{tree_failed, files_given, FilesAreWatched, FilesAreSized, FilesAre};
ghost use Rattle.outside.specs.TreeAns.{after_files};

use crate::answers::{StampsAns, TreeAns};
use crate::calls::Calls;
use crate::file_table::FileTable;
use crate::files::{CallNumbers, FileEntries, FileEntry, Snapshot, Stamp, Stamps};
use crate::glance::Glance;
use crate::trees::Tree;
use crate::watched::is_watched;
use lists::{Copying, Listed, SharedList, Text};
use std::alloc::{AllocError, Global};
use std::marker::Model;

/// A tree in memory, which is edited between its calls and fails at the calls with the given numbers.
/// It keeps files that aren't watched too, and never gives them.
#[derive(Drop)]
pub struct MemTree {
    watched: FileTable,
    others: FileTable,
    /// The watched files as they were given last, if no edit came after.
    shown: Option<SharedList<FileEntry>>,
    given: Vec<Glance>,
    writes: u64,
    calls: Calls,
    alloc: Global,
}

impl Model for MemTree {
    ghost use Rattle.outside.specs.MemTree.{TreeState};

    ghost Value = { TreeState };

    ghost use Rattle.std.specs.Prelude.{◌≡◌, map, All, IfSome};
    ghost use Rattle.outside.specs.Watched.{IsWatched};
    ghost use Rattle.outside.specs.Order.{Rising};
    ghost use Rattle.outside.specs.Tree.{IsSized, paths_of};
    ghost use Rattle.outside.specs.Glance.{given_of, IsNumbered};

    ghost view = { λ t. record {
      held = t.watched;
      others = t.others;
      given = map given_of t.given.items;
      writes = t.writes;
      calls = t.calls;
    } };

    ghost invariant = { λ t. All (λ f. IsWatched f.path) t.watched
        × IfSome t.shown (λ files. files ≡ t.watched)
        × IsNumbered t.watched t.given.items t.writes
        × Rising (paths_of t.watched)
        × All IsSized t.watched };
}

fn is_either(first: bool, second: bool) -> bool
    ensures { IsTrue result ↔ (IsTrue first ⊎ IsTrue second) }
{
    first || second
}

/// The stamps of files, each with its path.
#[tactic(auto, using(crate::proofs::TreeLaws::stamps_more))]
pub fn copy_stamps(alloc: Global, files: &[FileEntry]) -> Result<Stamps, AllocError>
    ensures { IfOk result (λ stamps. stamps ≡ stamps_of files.now) }
{
    let mut stamps = Listed::new(alloc);
    'files: for file in files {
        stamps.push((file.path.copy()?, file.stamp))?;
    }
    Ok(stamps)
}

impl MemTree {
    /// A tree without files. The calls with these numbers, counted from 1, are to fail.
    pub fn new(alloc: Global, fails: CallNumbers) -> MemTree
        ensures { result ≡ empty_tree fails }
    {
        MemTree {
            watched: FileTable::new(alloc),
            others: FileTable::new(alloc),
            shown: None,
            given: Vec::new(alloc),
            writes: 0,
            calls: Calls::new(fails),
            alloc,
        }
    }

    /// Writes a file, in place of one of the same path. Its stamp has the number of its bytes as its length and the
    /// number of the write as its time. A write that no number is left for finds no memory.
    pub fn write(&mut self, path: &str, bytes: &[u8]) -> Result<(), AllocError>
        ensures ok { OnOk result (Writes path.now bytes.now self.old self.new) }
        ensures err { OnErr result (self.new ≡ self.old) }
    {
        let Some(number) = self.writes.checked_add(1) else {
            return Err(AllocError);
        };
        let file = FileEntry {
            path: Text::from_bytes(self.alloc, path.as_bytes())?,
            bytes: Text::from_bytes(self.alloc, bytes)?,
            stamp: Stamp {
                length: bytes.len() as u64,
                time: number,
            },
        };
        if is_watched(path.as_bytes()) {
            self.put_watched(file)
        } else {
            self.put_other(file)
        }
    }

    fn put_watched(&mut self, file: FileEntry) -> Result<(), AllocError>
        requires watched { IsWatched file.path }
        requires sized { IsSized file }
        requires next { file.stamp.time ≡ self.old.writes + 1 }
        ensures ok { OnOk result (self.new ≡ with_held file self.old) }
        ensures err { OnErr result (self.new ≡ self.old) }
    {
        let number = file.stamp.time;
        self.watched.put(file)?;
        self.shown = None;
        self.writes = number;
        Ok(())
    }

    fn put_other(&mut self, file: FileEntry) -> Result<(), AllocError>
        requires { file.stamp.time ≡ self.old.writes + 1 }
        ensures ok { OnOk result (self.new ≡ with_other file self.old) }
        ensures err { OnErr result (self.new ≡ self.old) }
    {
        let number = file.stamp.time;
        self.others.put(file)?;
        self.writes = number;
        Ok(())
    }

    /// Removes the file with this path. It answers whether there was one.
    pub fn remove(&mut self, path: &str) -> bool
        ensures found { IsTrue result ↔ (HasPath self.old.held path.now ⊎ HasPath self.old.others path.now) }
        ensures removed { self.new ≡ without_path path.now self.old }
    {
        let was_watched = self.watched.remove(path.as_bytes());
        let was_other = self.others.remove(path.as_bytes());
        self.shown = None;
        is_either(was_watched, was_other)
    }

    /// The watched files, in a list that is shared with the calls before and after, up to the next edit.
    fn share_watched(&mut self) -> Result<SharedList<FileEntry>, AllocError>
        ensures files { IfOk result (λ files. files ≡ self.old.held) }
        ensures watched { ListsWatched (paths_of self.old.held) }
        ensures sized { All IsSized self.old.held }
        ensures same { self.new ≡ self.old }
        ensures agrees { AgreesOnStamps (Some self.old.held) (Some self.old.given) }
    {
        let held = self.watched.files();
        match &self.shown {
            Some(files) => files.copy(),
            None => {
                let files = SharedList::from_slice(self.alloc, held)?;
                self.shown = Some(files.copy()?);
                Ok(files)
            }
        }
    }

    /// Keeps what is given, and counts the call.
    fn keep_given(&mut self, files: SharedList<FileEntry>, whole: bool) -> Result<(), AllocError>
        requires { files ≡ self.old.held }
        ensures ok { OnOk result (self.new ≡ after_giving
            (record { stamps = stamps_of files; snapshot = cond whole (Some files) None } ∷ []) self.old) }
        ensures err { OnErr result (self.new ≡ self.old) }
        ensures agrees { AgreesOnStamps (Some self.new.held) (Some self.new.given) }
    {
        self.given.push(Glance { files, whole })?;
        self.calls.count_passed();
        Ok(())
    }

    fn give_stamps(&mut self) -> Result<Stamps, AllocError>
        ensures stamps { IfOk result (λ stamps. stamps ≡ stamps_of self.old.held) }
        ensures watched { ListsWatched (paths_of self.old.held) }
        ensures holds_watched { HoldsWatched (Some self.new.held) }
        ensures ok { IfOk result
            (λ stamps. self.new ≡ after_giving (record { stamps = stamps; snapshot = None } ∷ []) self.old) }
        ensures err { OnErr result (self.new ≡ self.old) }
        ensures agrees { AgreesOnStamps (Some self.new.held) (Some self.new.given) }
    {
        let files = self.share_watched()?;
        let stamps = copy_stamps(self.alloc, files.as_slice())?;
        self.keep_given(files, false)?;
        Ok(stamps)
    }

    fn give_files(&mut self) -> Result<Snapshot, AllocError>
        ensures files { IfOk result (λ snapshot. snapshot.files ≡ self.old.held) }
        ensures watched { ListsWatched (paths_of self.old.held) }
        ensures sized { All IsSized self.old.held }
        ensures holds_watched { HoldsWatched (Some self.new.held) }
        ensures ok { IfOk result (λ snapshot. self.new ≡ after_giving
            (record { stamps = stamps_of snapshot.files; snapshot = Some snapshot.files } ∷ []) self.old) }
        ensures err { OnErr result (self.new ≡ self.old) }
        ensures agrees { AgreesOnStamps (Some self.new.held) (Some self.new.given) }
    {
        let files = self.share_watched()?;
        let copied: FileEntries = Listed::from_slice(self.alloc, files.as_slice())?;
        self.keep_given(files, true)?;
        Ok(Snapshot { files: copied })
    }
}

impl Tree for MemTree {
    ghost faults = { λ t. t.calls.faults };

    ghost holds = { λ t. Some t.held };

    ghost given = { λ t. Some t.given };

    fn stamps(&mut self) -> StampsAns
        ensures watched { StampsAreWatched result }
        ensures held { StampsAreOf result (Some self.new.held) }
        ensures given { Some self.new.given ≡ appended (Some self.old.given) (stamps_given result) }
        ensures tells { is_some (Some self.new.held) ≡ is_some (Some self.old.held) }
        ensures holds_watched { HoldsWatched (Some self.new.held) }
        ensures same_contents { AgreesOnStamps (Some self.new.held) (Some self.new.given) }
        ensures faults { Counts (stamps_failed result) self.old.calls.faults self.new.calls.faults }

        // It fails at the calls that it was told to fail at alone, and no call edits it.
        ensures fails { IsTrue (stamps_failed result) ↔ IsDue self.old.calls }
        ensures after { self.new ≡ after_stamps result self.old }
    {
        if self.calls.is_due() {
            self.calls.count_failed();
            return StampsAns::Failed;
        }
        match self.give_stamps() {
            Ok(stamps) => StampsAns::Read(stamps),
            Err(_) => StampsAns::Memory,
        }
    }

    fn read_all(&mut self) -> TreeAns
        ensures watched { FilesAreWatched result }
        ensures sized { FilesAreSized result }
        ensures held { FilesAre result (Some self.new.held) }
        ensures given { Some self.new.given ≡ appended (Some self.old.given) (files_given result) }
        ensures tells { is_some (Some self.new.held) ≡ is_some (Some self.old.held) }
        ensures holds_watched { HoldsWatched (Some self.new.held) }
        ensures same_contents { AgreesOnStamps (Some self.new.held) (Some self.new.given) }
        ensures faults { Counts (tree_failed result) self.old.calls.faults self.new.calls.faults }

        ensures fails { IsTrue (tree_failed result) ↔ IsDue self.old.calls }
        ensures after { self.new ≡ after_files result self.old }
    {
        if self.calls.is_due() {
            self.calls.count_failed();
            return TreeAns::Failed;
        }
        match self.give_files() {
            Ok(snapshot) => TreeAns::Read(snapshot),
            Err(_) => TreeAns::Memory,
        }
    }

    ghost tells_both = { λ tree. refl };
}
