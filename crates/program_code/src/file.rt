//! The code of what a file says of the constants that it owns.
ghost use Rattle.std.specs.Prelude.{◌≡◌, ◌≢◌, [], ◌∷◌, ◌++◌, List, All, None, IfOk, OnOk};
ghost use Rattle.program_entries.specs.Seen.{seen_all};
ghost use Rattle.program_files.specs.Files.{UsedFile};
ghost use Rattle.program_outcomes.specs.Outcomes.{IsOutcome};
ghost use Rattle.ruby_nodes.specs.Entries.{Extends};
ghost use Rattle.program_code.specs.Codes.{AddsContents, AddsSaid, faulty_codes, task_path, task_paths, used_of};
ghost use Rattle.program_code.specs.Groups.{AreDistinct, file_named, first_kind, groups};
ghost use Rattle.program_code.specs.Seen.{placed_groups};

use crate::content::{ContentCode, content_of};
use crate::groups::{Group, groups_of};
use lists::Copying;
use program_constants::ConstantTable;
use program_entries::{Entry, entries_of};
use program_outcomes::Outcome;
use program_used::{FileText, UsedText};
use ruby_nodes::NodeTable;
use ruby_types::{CPath, Task, Text};
use std::alloc::{AllocError, Global};

fn push_path(paths: &mut Vec<CPath>, task: &Task) -> Result<(), AllocError>
    ensures { OnOk result (paths.new.items ≡ paths.old.items ++ task_path task.now) }
{
    match task {
        Task::Const(path) => {
            paths.push(path.copy()?)?;
            Ok(())
        }
        Task::File(_) | Task::Ancestors(_) | Task::Request(_) => Ok(()),
    }
}

/// The constants of tasks.
fn paths_of(alloc: Global, tasks: &[Task]) -> Result<Vec<CPath>, AllocError>
    ensures { IfOk result (λ paths. paths.items ≡ task_paths tasks.now) }
{
    let mut paths = Vec::new(alloc);
    'tasks: for task in tasks {
        push_path(&mut paths, task)?;
    }
    Ok(paths)
}

fn push_code(codes: &mut Vec<ContentCode>, code: ContentCode) -> Result<(), AllocError>
    ensures { OnOk result (codes.new.items ≡ codes.old.items ++ code ∷ []) }
{
    codes.push(code)?;
    Ok(())
}

fn push_faulty(codes: &mut Vec<ContentCode>, task: &Task) -> Result<(), AllocError>
    ensures { OnOk result (codes.new.items ≡ codes.old.items ++ faulty_codes (task_path task.now)) }
{
    match task {
        Task::Const(_) => push_code(codes, ContentCode::Faulty),
        Task::File(_) | Task::Ancestors(_) | Task::Request(_) => Ok(()),
    }
}

/// Adds for each constant of these tasks that its file is at fault.
fn push_all_faulty(codes: &mut Vec<ContentCode>, tasks: &[Task]) -> Result<(), AllocError>
    ensures { OnOk result (codes.new.items ≡ codes.old.items ++ faulty_codes (task_paths tasks.now)) }
{
    'tasks: for task in tasks {
        push_faulty(codes, task)?;
    }
    Ok(())
}

/// Adds what the entries of each group say of their constant, of which one defines it.
fn push_contents(
    alloc: Global,
    nodes: &mut NodeTable,
    codes: &mut Vec<ContentCode>,
    file: &Text,
    entries: &[Entry<'_>],
    groups: &[Group],
) -> Result<(), AllocError>
    requires { All (λ es. first_kind es ≢ None) (placed_groups (seen_all entries.now) groups.now) }
    ensures extends { Extends nodes.old nodes.new }
    ensures added { OnOk result (AddsContents nodes.new (file_named file.now) codes.old.items codes.new.items
        (placed_groups (seen_all entries.now) groups.now)) }
{
    'places: for place in 0..groups.len() {
        let code = content_of(alloc, nodes, file, entries, groups[place].as_slice())?;
        push_code(codes, code)?;
    }
    Ok(())
}

/// Adds what these entries say of the constants of tasks, each of which they define.
fn push_entries(
    alloc: Global,
    nodes: &mut NodeTable,
    codes: &mut Vec<ContentCode>,
    file: &Text,
    entries: &[Entry<'_>],
    tasks: &[Task],
) -> Result<(), AllocError>
    requires distinct { AreDistinct (task_paths tasks.now) }
    requires defined { All (λ es. first_kind es ≢ None) (groups (seen_all entries.now) (task_paths tasks.now)) }
    ensures extends { Extends nodes.old nodes.new }
    ensures added { OnOk result (AddsContents nodes.new (file_named file.now) codes.old.items codes.new.items
        (groups (seen_all entries.now) (task_paths tasks.now))) }
{
    let paths = paths_of(alloc, tasks)?;
    // (a file has fewer bytes, so that it defines fewer constants)
    if paths.len() > u32::MAX as usize {
        return Err(AllocError);
    }
    let table = ConstantTable::new(alloc, paths)?;
    let groups = groups_of(alloc, &table, entries)?;
    push_contents(alloc, nodes, codes, file, entries, groups.as_slice())
}

/// Adds the code of what a file with this path, text and outcome says of the constants of its tasks.
pub fn push_file_codes(
    alloc: Global,
    nodes: &mut NodeTable,
    codes: &mut Vec<ContentCode>,
    file: &Text,
    used: &UsedText,
    outcome: &Outcome,
) -> Result<(), AllocError>
    requires { (all : List UsedFile) × IsOutcome all (used_of file.now used.now) outcome.now }
    ensures extends { Extends nodes.old nodes.new }
    ensures added { OnOk result ((all : List UsedFile) → IsOutcome all (used_of file.now used.now) outcome.now →
        AddsSaid all nodes.new (used_of file.now used.now) codes.old.items codes.new.items
        (task_paths outcome.now.tasks)) }
{
    match &outcome.fault {
        Some(_) => push_all_faulty(codes, outcome.tasks.as_slice()),
        None => match &used.text {
            FileText::Tree(tree) => {
                let entries = entries_of(alloc, tree)?;
                push_entries(
                    alloc,
                    nodes,
                    codes,
                    file,
                    entries.as_slice(),
                    outcome.tasks.as_slice(),
                )
            }
            FileText::Fault { .. } => unreachable!(),
        },
    }
}
