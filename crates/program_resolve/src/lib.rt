//! How names are found by what files define, and that what is found has a task.
//!
//! Of the files `app/lib/a.rb` with `module A`, `X = 1`, `end` and `app/lib/a/b.rb` with `module A::B`, `end`, the name
//! `X` in the scope `A::B` alone is found nowhere, since `A` is no scope of it; in the scopes `A::B` and `A` it is
//! `A::X`. Were the file of `A::B` at fault, either search would come to that fault.
#![tactic(auto)]

ghost use Rattle.std.specs.Prelude.{◌≡◌, List};
ghost use Rattle.ruby_types.specs.declared.request.Task.TheVariants as task;
ghost use Rattle.program_places.specs.Places.{Content, Owned};
ghost use Rattle.program_files.specs.Members.{Among};
ghost use Rattle.program_files.specs.Owners.{OneFile};
ghost use Rattle.program_files.specs.Tasks.{file_tasks};
ghost use Rattle.program_places.specs.Paths.{Name, Path};
ghost use Rattle.program_files.specs.Files.{UsedFile, has_site};
ghost use Rattle.program_files.specs.Contents.{place_of};
ghost use Rattle.program_resolve.specs.Resolve.{IsOf, bare, inside, at_top, namespace_or_nothing};

/// What a bare name is found as has a task or is a namespace without a file, or it is the fault of a file.
#[tactic(auto, using(crate::proofs::Found::bare_is_of))]
pub fn bare_name_has_a_task()
    ensures { (files : List UsedFile) (scopes : List Path) (name : Name) →
        IsOf files (bare (place_of files) scopes name) }
{}

/// So it is with a name behind a constant.
#[tactic(auto, using(crate::proofs::Found::inside_is_of))]
pub fn qualified_name_has_a_task()
    ensures { (files : List UsedFile) (path : Path) (name : Name) → IsOf files (inside (place_of files) path name) }
{}

/// So it is with a name of the top level.
#[tactic(auto, using(crate::proofs::Found::top_is_of))]
pub fn top_name_has_a_task()
    ensures { (files : List UsedFile) (name : Name) → IsOf files (at_top (place_of files) name) }
{}

/// A file owns each constant that is one of its tasks: what stands at the constant's path is what the file says.
#[tactic(auto, using(crate::proofs::Standing::task_owned))]
pub fn a_task_is_owned()
    ensures { (files : List UsedFile) → OneFile files → (file : UsedFile) (path : Path) → Among file files →
        Among (task.Const path) (file_tasks files file) →
        (content : Content) × (place_of files path ≡ Owned file.path content) }
{}

/// Where a path is no task of a file, no file owns it: it is a namespace without a file, or nothing.
#[tactic(auto, using(crate::proofs::Standing::no_owner_stands))]
pub fn no_task_is_not_owned()
    ensures { (files : List UsedFile) (path : Path) →
        ((file : UsedFile) → Among file files → Among (task.Const path) (file_tasks files file) → ⊥) →
        place_of files path ≡ namespace_or_nothing (has_site files path) }
{}
