//! What holds of every program.
ghost use Rattle.std.specs.Prelude.{◌≡◌, [], List};
ghost use Rattle.outside.specs.declared.files.FileEntry.{FileEntry};
ghost use Rattle.program_files.specs.Owners.{OneFile};
ghost use Rattle.program_tables.specs.Resolved.{OneNumber};
ghost use Rattle.program_index.specs.Content.{Content, files_of, used_files};
ghost use Rattle.program_index.specs.Program.{IsProgram, empty_program};

/// In a program no two files that are used spell one constant or have one path, which is what
/// `program_files::one_owner` asks for.
#[tactic(auto, using(crate::proofs::OneLaws::one_files))]
pub fn files_are_one()
    ensures { (files : List FileEntry) (program : Content) → IsProgram files program → OneFile (used_files program) }
{}

/// So it is with their numbers.
#[tactic(auto, using(crate::proofs::OneLaws::one_numbers))]
pub fn numbers_are_one()
    ensures { (files : List FileEntry) (program : Content) → IsProgram files program → OneNumber (files_of program) }
{}

/// A program of no files is the empty one.
pub fn empty_is_one()
    ensures { (program : Content) → IsProgram [] program → program ≡ empty_program }
{}
