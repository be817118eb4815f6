//! The laws of the faults of files, each as the contract of a function that does nothing.
ghost use Rattle.std.specs.Prelude.{◌≢◌, ℕ, All, List};
ghost use Rattle.app_config.specs.Configuration.{faults};
ghost use Rattle.outside.specs.declared.files.FileEntry.{FileEntry};
ghost use Rattle.program_snapshots.specs.Refusals.{IsRefusal};
ghost use Rattle.program_snapshots.specs.declared.fault.ProgramFault.{ProgramFault};
ghost use Rattle.program_snapshots.specs.declared.fault.ProgramFault.TheVariants.{Memory};
ghost use Rattle.snapshot_faults.specs.Faults.{IsFaultOfFiles, IsLineFault};

/// No line of a configuration has want of memory for its fault.
pub fn lines_have_no_want_of_memory()
    ensures { (text : List ℕ) → All (λ fault. IsLineFault fault.kind) (faults text) }
{}

/// What refuses files, and isn't want of memory, holds none.
pub fn refusals_are_of_files()
    ensures { (files : List FileEntry) (fault : ProgramFault) → IsRefusal files fault → fault ≢ Memory →
        IsFaultOfFiles fault }
{}
