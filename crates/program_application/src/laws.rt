//! The laws of a generation's application, each as the contract of a function that does nothing.
ghost use Rattle.std.specs.Prelude.{◌≡◌, ℕ, List};
ghost use Rattle.by_need.specs.Open.{AllTasks};
ghost use Rattle.outside.specs.declared.files.FileEntry.{FileEntry};
ghost use Rattle.program_index.specs.Content.{Content, used_files};
ghost use Rattle.program_index.specs.Program as program;
ghost use Rattle.program_index.specs.Program.{IsProgram};
ghost use Rattle.program_replies.specs.Profiled.{AreFiles};
ghost use Rattle.program_theory.specs.Applications.{index_in, rules_of};
ghost use Rattle.program_values.specs.Standing.{IsWritten};
ghost use Rattle.program_application.specs.Applications.{application_of};

/// A program's files are as the laws of applications want them: no two spell one constant or have one path, and each
/// was read as the tree of a text or has a first fault.
pub fn a_program_has_files()
    ensures { (files : List FileEntry) (p : Content) → IsProgram files p → AreFiles (used_files p) }
{}

/// What is looked up of a program is what its application's runs look up.
pub fn the_application_looks_at_the_index()
    ensures { (p : Content) → index_in (application_of p) ≡ program.index_in p }
{}

/// What a program's files define stands in what is looked up of it.
pub fn what_the_index_holds_is_written()
    ensures { (files : List FileEntry) (p : Content) → IsProgram files p → IsWritten (program.index_in p) }
{}

/// The tasks of each file of a program are tasks of its application.
pub fn tasks_of_files_are_tasks()
    ensures { (p : Content) (number : ℕ) → AllTasks (rules_of (application_of p)) (program.tasks_of p number) }
{}
