//! What tables tell of an application.
ghost use Rattle.std.specs.Prelude.{List, Option};
ghost use Rattle.program_files.specs.Files.{UsedFile};
ghost use Rattle.program_files.specs.Owners.{OneFile};
ghost use Rattle.program_outcomes.specs.Outcomes.{listed};
ghost use Rattle.program_places.specs.Paths.{Name, Path};
ghost use Rattle.program_standing.specs.Search.{resolved};
ghost use Rattle.program_tables.specs.Tables.{tables_of};
ghost use Rattle.program_tables.specs.Resolved.{IsResolved, OneNumber};

/// What a name is found as by the tables of files is what it is by what the files define.
pub fn tables_resolve()
    ensures { (files : List (Option UsedFile)) → OneFile (listed files) → OneNumber files →
        (scopes : List Path) (name : Name) → IsResolved files scopes name (resolved (tables_of files) scopes name) }
{}
