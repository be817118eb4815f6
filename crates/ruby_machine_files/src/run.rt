ghost use Rattle.std.specs.Prelude.{◌≡◌, drop};
ghost use Rattle.program_places.specs.Places.{AsksFor, Index};
ghost use Rattle.ruby_runs.specs.Runs.{file_run, run_limits};
ghost use Rattle.ruby_machine_names.specs.Profile.{profile};
ghost use Rattle.ruby_machine_files.specs.Files.{TaskGoes, asks_from, finish, rest_of_file, waits};

use crate::here::{TASK_TURNS, file_here};
use crate::step::TaskStep;
use lists::Copying;
use program_lookups::{LoadingCode, Lookups, Scopes};
use ruby_machine_names::{Failure, copy_error, spend};
use ruby_types::{Task, Text, Value, copy_task};
use std::alloc::Global;

/// A file that waits for the value of a task: the place of the next one among its tasks, and the turns that are left.
#[derive(Drop)]
pub struct FileWait {
    pub file: Text,
    pub place: usize,
    pub turns: u32,
}

/// Asks for the task at a place of a file's tasks.
fn ask_next(
    alloc: Global,
    tasks: &[Task],
    file: Text,
    place: usize,
    mut turns: u32,
) -> Result<TaskStep<FileWait>, Failure>
    ensures { (index : Index) → index.loading file ≡ AsksFor tasks.now →
        TaskGoes (waits index) (asks_from index file (drop place tasks.now) turns) result }
{
    let Some(task) = tasks.get(place) else {
        return Ok(TaskStep::Done(Value::Nil));
    };
    if !spend(&mut turns) {
        return Err(file_here(&file, Scopes::new(alloc))?.spent(alloc));
    }
    let task = copy_task(task)?;
    let place = place + 1;
    Ok(TaskStep::Asks(task, FileWait { file, place, turns }))
}

/// Goes on with the tasks of a file from a place on.
fn go_on<P: Lookups>(
    alloc: Global,
    program: &P,
    file: Text,
    place: usize,
    turns: u32,
) -> Result<TaskStep<FileWait>, Failure>
    ensures { let i = P.index program.now in
        TaskGoes (waits i) (rest_of_file i file place (i.loading file) turns) result }
{
    match program.loading(&file) {
        LoadingCode::Absent => Ok(TaskStep::Done(Value::Nil)),
        LoadingCode::Fails(error) => Err(Failure::Raised(copy_error(error)?)),
        LoadingCode::AsksFor(tasks) => ask_next(alloc, tasks, file, place, turns),
    }
}

/// Begins the run of a file's task.
pub fn begin<P: Lookups>(
    alloc: Global,
    program: &P,
    file: &Text,
) -> Result<TaskStep<FileWait>, Failure>
    ensures { let i = P.index program.now in
        TaskGoes (waits i) (file_run i profile run_limits file.now (i.loading file.now) run_limits.task_turns finish)
        result }
{
    go_on(alloc, program, file.copy()?, 0, TASK_TURNS)
}

/// Goes on behind the value of a task, which only had to be there.
pub fn resume<P: Lookups>(
    alloc: Global,
    program: &P,
    wait: FileWait,
    value: Value,
) -> Result<TaskStep<FileWait>, Failure>
    ensures { TaskGoes (waits (P.index program.now)) (waits (P.index program.now) wait value) result }
{
    go_on(alloc, program, wait.file, wait.place, wait.turns)
}
