ghost use Rattle.std.specs.Prelude.{◌≡◌, ℕ, List, Option, is_some};
ghost use Rattle.outside.specs.Faults.{Counts};
ghost use Rattle.outside.specs.Told.{appended};
ghost use Rattle.outside.specs.Tree.{Given, AgreesOnStamps, HoldsWatched};
ghost use Rattle.outside.specs.StampsAns.{stamps_failed, stamps_given, StampsAreWatched, StampsAreOf};
ghost use Rattle.outside.specs.TreeAns.{tree_failed, files_given, FilesAreWatched, FilesAreSized, FilesAre};
ghost use Rattle.outside.specs.declared.files.FileEntry.{FileEntry};

use crate::answers::{StampsAns, TreeAns};

/// A tree of files that others may change between the calls. It gives the watched files alone.
pub trait Tree {
    /// How many calls have failed.
    ghost faults: { Self → ℕ };

    /// The watched files that it holds, in the order of their paths, where it tells them.
    ghost holds: { Self → Option (List FileEntry) };

    /// What it gave, an item for each answer Read of either call, where it tells.
    ghost given: { Self → Option (List Given) };

    /// The stamps of the files that it holds.
    fn stamps(&mut self) -> StampsAns
        ensures watched { StampsAreWatched result }
        ensures held { StampsAreOf result (holds self.new) }
        ensures given { given self.new ≡ appended (given self.old) (stamps_given result) }
        ensures tells { is_some (holds self.new) ≡ is_some (holds self.old) }
        ensures holds_watched { HoldsWatched (holds self.new) }
        ensures same_contents { AgreesOnStamps (holds self.new) (given self.new) }
        ensures faults { Counts (stamps_failed result) (faults self.old) (faults self.new) };

    /// The files that it holds, with their contents.
    fn read_all(&mut self) -> TreeAns
        ensures watched { FilesAreWatched result }
        ensures sized { FilesAreSized result }
        ensures held { FilesAre result (holds self.new) }
        ensures given { given self.new ≡ appended (given self.old) (files_given result) }
        ensures tells { is_some (holds self.new) ≡ is_some (holds self.old) }
        ensures holds_watched { HoldsWatched (holds self.new) }
        ensures same_contents { AgreesOnStamps (holds self.new) (given self.new) }
        ensures faults { Counts (tree_failed result) (faults self.old) (faults self.new) };

    /// It tells what it gave exactly where it tells what it holds.
    ghost tells_both: { (tree : Self) → is_some (given tree) ≡ is_some (holds tree) };
}
