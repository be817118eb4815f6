//! The law of refusals, as the contract of a function that does nothing.
ghost use Rattle.std.specs.Prelude.{◌≡◌, List, Some};
ghost use Rattle.outside.specs.declared.files.FileEntry.{FileEntry};
ghost use Rattle.program_snapshots.specs.Refusals.{IsRefusal};
ghost use Rattle.program_snapshots.specs.declared.fault.ProgramFault.{ProgramFault};
ghost use Rattle.tree_command.specs.Tree.{IsRefused};
ghost use Rattle.tree_report.specs.declared.refusal.Refusal.{Refusal};
ghost use Rattle.program_refusals.specs.Refusals.{refusal_of};

/// Why files have no program is why they have no listing.
pub fn refusals_are_those_of_listings()
    ensures { (files : List FileEntry) (fault : ProgramFault) (refusal : Refusal) → IsRefusal files fault →
        refusal_of fault ≡ Some refusal → IsRefused files refusal }
{}
