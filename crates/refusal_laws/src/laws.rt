//! The law of files that have a program, as the contract of a function that does nothing.
ghost use Rattle.std.specs.Prelude.{List};
ghost use Rattle.outside.specs.declared.files.FileEntry.{FileEntry};
ghost use Rattle.program_index.specs.Content.{Content};
ghost use Rattle.program_index.specs.Program.{IsProgram};
ghost use Rattle.tree_command.specs.Tree.{IsRefused};
ghost use Rattle.tree_report.specs.declared.refusal.Refusal.{Refusal};

/// Files that have a program are not refused.
pub fn a_program_is_not_refused()
    ensures { (files : List FileEntry) (program : Content) (refusal : Refusal) → IsProgram files program →
        IsRefused files refusal → ⊥ }
{}
