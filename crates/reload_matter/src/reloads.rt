//! Matters whose programs are built of files.
ghost use Rattle.std.specs.Prelude.{◌≡◌, ℕ, List, true, Option, Some, Ok, Err, IfOk};
ghost use Rattle.outside.specs.declared.files.FileEntry.{FileEntry};
ghost use Rattle.outside.specs.declared.files.Stamp.{Stamp};
ghost use Rattle.outside.specs.Tree.{stamps_of};
ghost use Rattle.reload_matter.specs.Sources.{Sources};

use outside::{Snapshot, Stamps};
use std::alloc::{AllocError, Global};
use system_events::Matter;

/// A matter whose programs are built of files.
pub trait Reloads: Matter {
    // What programs are of files.
    ghost sources: { Sources Self.Program Self.Fault };

    /// The limit that files with these paths and stamps exceed.
    fn limit(stamps: &Stamps) -> Option<Self::Fault>
        ensures { result ≡ sources.limit stamps.now };

    /// Whether the program's files have these paths and stamps. It takes no memory.
    fn has_stamps(program: &Self::Program, stamps: &Stamps) -> bool
        ensures { result ≡ sources.has_stamps program.now stamps.now };

    /// The program of files, or why they give none.
    fn build(
        alloc: Global,
        snapshot: Snapshot,
    ) -> Result<Result<Self::Program, Self::Fault>, AllocError>
        ensures { IfOk result (sources.Builds snapshot.files) };

    // What is built is a program.
    ghost programs_are: { (files : List FileEntry) (program : Self.Program) → sources.Builds files (Ok program) →
        Self.facts.IsProgram program };

    // It has the stamps of its files.
    ghost has_its_stamps: { (files : List FileEntry) (program : Self.Program) → sources.Builds files (Ok program) →
        sources.has_stamps program (stamps_of files) ≡ true };

    // Another program has the same stamps where it has those of these files.
    ghost same_stamps_are: { (files : List FileEntry) (next program : Self.Program) → sources.Builds files (Ok next) →
        Self.facts.same_stamps next program ≡ sources.has_stamps program (stamps_of files) };

    // What files exceed, and why they give no program, may refuse a request.
    ghost limits_refuse: { (stamps : List (List ℕ × Stamp)) (fault : Self.Fault) →
        sources.limit stamps ≡ Some fault → Self.facts.IsFault fault };

    ghost faults_refuse: { (files : List FileEntry) (fault : Self.Fault) → sources.Builds files (Err fault) →
        Self.facts.IsFault fault };
}
