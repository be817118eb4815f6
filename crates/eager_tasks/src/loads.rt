ghost use Rattle.std.specs.Prelude.{◌≡◌, ◌++◌, map, IfOk, OnOk};
ghost use Rattle.eager_tasks.specs.Loads as spec;
ghost use Rattle.eager_tasks.specs.Loads.{AreLoaded, IsPlan, all_tasks, file_task};

use eager_plan::eager_files;
use lists::Copying;
use outside::FileEntry;
use program_index::{Program, Tasks};
use ruby_types::{Task, Text, copy_task};
use std::alloc::{AllocError, Global};

fn file_task(alloc: Global, files: &[FileEntry], number: u32) -> Result<Task, AllocError>
    ensures { IfOk result (λ task. task ≡ file_task files.now number) }
{
    match files.get(number as usize) {
        Some(file) => Ok(Task::File(file.path.copy()?)),
        None => Ok(Task::File(Text::new(alloc))),
    }
}

fn tasks_for(alloc: Global, files: &[FileEntry], numbers: &[u32]) -> Result<Vec<Task>, AllocError>
    ensures { IfOk result (λ tasks. tasks.items ≡ map (file_task files.now) numbers.now) }
{
    let mut tasks = Vec::new(alloc);
    'numbers: for number in numbers {
        tasks.push(file_task(alloc, files, *number)?)?;
    }
    Ok(tasks)
}

/// The tasks that load the files of these numbers, in their order. An error where memory runs out.
pub fn file_tasks(
    alloc: Global,
    program: &Program,
    numbers: &[u32],
) -> Result<Vec<Task>, AllocError>
    ensures { IfOk result (λ tasks. tasks.items ≡ spec.file_tasks program.now numbers.now) }
{
    tasks_for(alloc, program.snapshot().files.as_slice(), numbers)
}

/// Adds copies of tasks. An error where memory runs out.
pub fn push_tasks(tasks: &mut Vec<Task>, more: &[Task]) -> Result<(), AllocError>
    ensures { OnOk result (tasks.new.items ≡ tasks.old.items ++ more.now) }
{
    'tasks: for task in more {
        tasks.push(copy_task(task)?)?;
    }
    Ok(())
}

/// All tasks of the files of these numbers, in the order of the numbers. An error where memory runs out.
pub fn tasks_of_files(
    alloc: Global,
    program: &Program,
    numbers: &[u32],
) -> Result<Vec<Task>, AllocError>
    ensures { IfOk result (λ tasks. tasks.items ≡ all_tasks program.now numbers.now) }
{
    let mut tasks = Vec::new(alloc);
    'numbers: for number in numbers {
        push_tasks(&mut tasks, program.tasks_of_file(*number).as_slice())?;
    }
    Ok(tasks)
}

/// The files that are loaded eagerly, each by its number, in eager order: all that are the file of a constant, or only
/// the plan. An error where memory runs out.
pub fn files_to_load(
    alloc: Global,
    program: &Program,
    only_plan: bool,
) -> Result<Vec<u32>, AllocError>
    ensures { IfOk result (λ numbers. AreLoaded program.now only_plan numbers.items) }
{
    program.is_of_its_files();
    eager_files(
        alloc,
        program.snapshot(),
        program.config(),
        program.sites(),
        only_plan,
    )
}

/// The plan: the tasks that load the files which no line `skip_eager` of the configuration marks, in eager order. An
/// error where memory runs out.
pub fn plan(alloc: Global, program: &Program) -> Result<Tasks, AllocError>
    ensures { IfOk result (IsPlan program.now) }
{
    let numbers = files_to_load(alloc, program, true)?;
    Ok(Tasks::from_vec(file_tasks(alloc, program, numbers.as_slice())?))
}
