//! What the files of an application define: the fault of a file, who owns a constant, what stands at a path, and the
//! tasks that loading the files means.
//!
//! # What is told of files
//!
//! A file that is used has a path, a constant that its path spells, and a text, which is the entries of its tree or a
//! first fault of reading. Of the files
//!
//! | File | Text |
//! |---|---|
//! | `app/lib/a/b.rb` | `module A::B`, `end` |
//! | `app/lib/a/b/d.rb` | `module A::B::D`, `X = nil`, `end` |
//!
//! `A` is a namespace without a file, `A::B` and `A::B::D` are opened by their files, `A::B::D::X` is assigned by the
//! file of `A::B::D`, and the tasks of that file are itself, `A::B::D`, its ancestors, and `A::B::D::X`. Were
//! `module A::B::D::E` in the first file too, then this would be at fault, since `A::B::D` has a file of its own.
//!
//! | File of `specs/` | Says |
//! |---|---|
//! | `Entries` | what a tree writes, in text order, with its constants and scopes |
//! | `Files` | files that are used, and which constants have a site by them |
//! | `Faults` | the first of six faults of a file |
//! | `Contents` | what stands at a path |
//! | `Tasks` | tasks of files, and the index that runs look at |
#![tactic(auto)]

ghost use Rattle.std.specs.Prelude.{◌≡◌, List};
ghost use Rattle.program_places.specs.Paths.{Name, Path};
ghost use Rattle.program_places.specs.Tasks.{HasTasks};
ghost use Rattle.program_files.specs.Files.{UsedFile};
ghost use Rattle.program_files.specs.Members.{Among};
ghost use Rattle.program_files.specs.Owners.{OneFile};
ghost use Rattle.program_files.specs.Tasks.{file_tasks, tasks_of, index_of};
ghost use Rattle.ruby_types.specs.declared.request.Task.{Task};

/// All that runs over the index of files may ask for are tasks of the files.
#[tactic(auto, using(crate::proofs::Index::has_tasks))]
pub fn index_has_tasks()
    ensures { (files : List UsedFile) (controller : List Name → Path) →
        HasTasks (index_of files controller) (λ t. Among t (tasks_of files)) }
{}

/// No task is of two files: each constant has one owner.
pub fn one_owner()
    ensures { (files : List UsedFile) → OneFile files → (f g : UsedFile) (t : Task) → Among f files → Among g files →
        Among t (file_tasks files f) → Among t (file_tasks files g) → f ≡ g }
{}
