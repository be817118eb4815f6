//! Looks at a tree of files.
ghost use Rattle.std.specs.Prelude.{◌≡◌, ◌∷◌, [], List, Some, None, IfOk, IfErr, IfSome, Ok, Err, false};
ghost use Rattle.outside.specs.declared.files.FileEntry.{FileEntry};
ghost use Rattle.outside.specs.Faults.{Counts};
ghost use Rattle.outside.specs.Told.{appended};
ghost use Rattle.outside.specs.Tree.{Given, stamps_of};
ghost use Rattle.reload_checks.specs.Checks.{NoStamps, NoProgram, stamps_read, files_read, is_tree_fault};

use crate::answers::ReloadFault;
use outside::{Snapshot, Stamps, StampsAns, Tree, TreeAns};
use reload_matter::Reloads;
use std::alloc::Global;

/// The stamps of a tree's files, where they exceed no limit.
pub fn read_stamps<M: Reloads, T: Tree>(tree: &mut T) -> Result<Stamps, ReloadFault<M::Fault>>
    ensures within { IfOk result (λ stamps. M.sources.limit stamps ≡ None) }
    ensures read { IfOk result (λ stamps.
        T.given tree.new ≡ appended (T.given tree.old) (stamps_read stamps ∷ [])) }
    ensures held { IfOk result (λ stamps. IfSome (T.holds tree.new) (λ files. stamps ≡ stamps_of files)) }
    ensures refused { IfErr result (λ fault. (reads : List Given)
        × NoStamps M.sources fault reads × (T.given tree.new ≡ appended (T.given tree.old) reads)) }
    ensures faults { Counts (is_tree_fault result) (T.faults tree.old) (T.faults tree.new) }
{
    match tree.stamps() {
        StampsAns::Read(stamps) => match M::limit(&stamps) {
            None => Ok(stamps),
            Some(fault) => Err(ReloadFault::Program(fault)),
        },
        StampsAns::Failed => Err(ReloadFault::Tree),
        StampsAns::Memory => Err(ReloadFault::Memory),
    }
}

/// The program of a tree's files.
pub fn read_program<M: Reloads, T: Tree>(
    alloc: Global,
    tree: &mut T,
) -> Result<M::Program, ReloadFault<M::Fault>>
    ensures built { IfOk result (λ program. (files : List FileEntry) × M.sources.Builds files (Ok program)
        × (T.given tree.new ≡ appended (T.given tree.old) (files_read files ∷ []))
        × IfSome (T.holds tree.new) (λ held. files ≡ held)) }
    ensures refused { IfErr result (λ fault. (reads : List Given)
        × NoProgram M.sources fault reads × (T.given tree.new ≡ appended (T.given tree.old) reads)) }
    ensures faults { Counts (is_tree_fault result) (T.faults tree.old) (T.faults tree.new) }
{
    match tree.read_all() {
        TreeAns::Read(snapshot) => build::<M>(alloc, snapshot),
        TreeAns::Failed => Err(ReloadFault::Tree),
        TreeAns::Memory => Err(ReloadFault::Memory),
    }
}

// The program of files.
fn build<M: Reloads>(alloc: Global, snapshot: Snapshot) -> Result<M::Program, ReloadFault<M::Fault>>
    ensures built { IfOk result (λ program. M.sources.Builds snapshot.files (Ok program)) }
    ensures refused { IfErr result (λ fault. NoProgram M.sources fault (files_read snapshot.files ∷ [])) }
    ensures read { is_tree_fault result ≡ false }
{
    match M::build(alloc, snapshot) {
        Ok(Ok(program)) => Ok(program),
        Ok(Err(fault)) => Err(ReloadFault::Program(fault)),
        Err(_) => Err(ReloadFault::Memory),
    }
}
