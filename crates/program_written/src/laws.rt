//! The law of what files define, as the contract of a function that does nothing.
ghost use Rattle.std.specs.Prelude.{List};
ghost use Rattle.program_places.specs.Paths.{Name, Path};
ghost use Rattle.program_places.specs.Tasks.{EachIs};
ghost use Rattle.program_files.specs.Files.{UsedFile};
ghost use Rattle.program_files.specs.Owners.{OneFile};
ghost use Rattle.program_files.specs.Tasks.{index_of};
ghost use Rattle.program_values.specs.Standing.{IsWritten};
ghost use Rattle.program_written.specs.Reads.{IsRead};

/// Where no two files spell one constant or have one path, and each was read as the tree of a text or has a first
/// fault, what they define stands in their index.
pub fn what_files_define_stands()
    ensures { (files : List UsedFile) (controller : List Name → Path) → OneFile files →
        EachIs (λ f. IsRead f.reading) files → IsWritten (index_of files controller) }
{}
