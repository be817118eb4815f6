ghost use Rattle.std.specs.Prelude.{◌≡◌, [], ◌∷◌, ◌++◌, ◌<◌, not, ◌&&◌, length, slice_get, Some, IfOk, OnOk};
ghost use Rattle.ruby_types.specs.declared.request.Task.TheVariants as task;
ghost use Rattle.program_files.specs.Files as among;
ghost use Rattle.program_constants.specs.Constants.{first_place};
ghost use Rattle.program_entries.specs.Seen.{seen_all};
ghost use Rattle.program_faults.specs.Read.{used};
ghost use Rattle.program_tasks.specs.Placed.{own_tasks, is_at, kept_tasks, placed_tasks, inner_of, rest_by};

use crate::definitions::{defined_constants, defined_kinds};
use lists::{Copying, Listed};
use program_constants::ConstantTable;
use program_entries::Entry;
use program_faults::{OwnKind, ReadFile, entries_in, is_above};
use ruby_types::{CPath, Task};
use std::alloc::{AllocError, Global};

/// Tasks, in order.
pub type Tasks = Listed<Task>;

fn push_task(tasks: &mut Vec<Task>, task: Task) -> Result<(), AllocError>
    ensures { OnOk result (tasks.new.items ≡ tasks.old.items ++ task ∷ []) }
{
    tasks.push(task)?;
    Ok(())
}

/// Adds the tasks of a constant that is defined so.
fn push_own_tasks(tasks: &mut Vec<Task>, path: &CPath, kind: OwnKind) -> Result<(), AllocError>
    ensures { OnOk result (tasks.new.items ≡ tasks.old.items ++ own_tasks path.now kind) }
{
    match kind {
        OwnKind::Missing => Ok(()),
        OwnKind::Value => push_task(tasks, Task::Const(path.copy()?)),
        OwnKind::Module | OwnKind::Class => {
            push_task(tasks, Task::Const(path.copy()?))?;
            push_task(tasks, Task::Ancestors(path.copy()?))
        }
    }
}

fn is_at(first: Option<u32>, place: usize) -> bool
    ensures { result ≡ is_at first place }
{
    match first {
        None => false,
        Some(first) => first as usize == place,
    }
}

/// Whether a definition is the first of its path, which isn't above the constant.
fn is_kept(constant: &CPath, table: &ConstantTable, place: usize, path: &CPath) -> bool
    ensures { result ≡ (is_at (first_place path.now table.now) place
        && not (among.is_above path.now constant.now)) }
{
    is_at(table.first(path), place) && !is_above(path.as_slice(), constant.as_slice())
}

/// Adds the tasks of a definition, where it is the first of its path, which isn't above the constant.
fn push_kept(
    tasks: &mut Vec<Task>,
    constant: &CPath,
    table: &ConstantTable,
    place: usize,
    path: &CPath,
    kind: OwnKind,
) -> Result<(), AllocError>
    ensures { OnOk result (tasks.new.items
        ≡ tasks.old.items ++ kept_tasks constant.now table.now place path.now kind) }
{
    if is_kept(constant, table, place, path) {
        push_own_tasks(tasks, path, kind)
    } else {
        Ok(())
    }
}

fn kind_at(kinds: &[OwnKind], place: usize) -> OwnKind
    requires { place < length kinds.now }
    ensures { slice_get kinds.now place ≡ Some result }
{
    kinds[place]
}

/// Adds the tasks of definitions of these constants and kinds.
fn push_placed(
    tasks: &mut Vec<Task>,
    constant: &CPath,
    table: &ConstantTable,
    constants: &[CPath],
    kinds: &[OwnKind],
) -> Result<(), AllocError>
    requires { length kinds.now ≡ length constants.now }
    ensures { OnOk result (tasks.new.items
        ≡ tasks.old.items ++ placed_tasks constant.now table.now 0 constants.now kinds.now) }
{
    'places: for place in 0..constants.len() {
        push_kept(
            tasks,
            constant,
            table,
            place,
            &constants[place],
            kind_at(kinds, place),
        )?;
    }
    Ok(())
}

/// Adds the tasks of the definitions inside the file's constant.
fn push_inner(
    alloc: Global,
    tasks: &mut Vec<Task>,
    constant: &CPath,
    entries: &[Entry<'_>],
) -> Result<(), AllocError>
    ensures { OnOk result (tasks.new.items ≡ tasks.old.items ++ inner_of constant.now (seen_all entries.now)) }
{
    let constants = defined_constants(alloc, entries)?;
    let kinds = defined_kinds(alloc, entries)?;
    // (a file has fewer bytes, so that it has fewer definitions)
    if constants.len() > u32::MAX as usize {
        return Err(AllocError);
    }
    let table = ConstantTable::new(alloc, constants)?;
    push_placed(tasks, constant, &table, table.constants(), kinds.as_slice())
}

/// Adds the tasks of a file behind its own, by whether it is at fault.
fn push_rest(
    alloc: Global,
    tasks: &mut Vec<Task>,
    file: &ReadFile<'_>,
    at_fault: bool,
) -> Result<(), AllocError>
    ensures { OnOk result (tasks.new.items ≡ tasks.old.items ++ rest_by (used file.now) at_fault) }
{
    if at_fault {
        push_own_tasks(tasks, file.constant, OwnKind::Class)
    } else {
        push_inner(alloc, tasks, file.constant, entries_in(&file.reading))
    }
}

/// The tasks of a file, by whether it is at fault. An error where memory runs out.
pub fn tasks_by(alloc: Global, file: &ReadFile<'_>, at_fault: bool) -> Result<Tasks, AllocError>
    ensures { IfOk result (λ tasks. tasks ≡ task.File file.now.path.now ∷ rest_by (used file.now) at_fault) }
{
    let mut tasks = Vec::new(alloc);
    push_task(&mut tasks, Task::File(file.path.copy()?))?;
    push_rest(alloc, &mut tasks, file, at_fault)?;
    Ok(Tasks::from_vec(tasks))
}
