//! What loading a file asks for.
ghost use Rattle.std.specs.Prelude.{◌≡◌, ◌++◌, ◌<◌, ◌≤◌, [], List, length, map, take, IfOk, OnOk};
ghost use Rattle.outside.specs.declared.files.FileEntry.{FileEntry};
ghost use Rattle.program_files.specs.Files.{UsedFile};
ghost use Rattle.program_used.specs.Rows.{all_used};
ghost use Rattle.program_outcomes.specs.Outcomes.{HaveOutcomes, listed};
ghost use Rattle.program_tables.specs.Asks as spec;
ghost use Rattle.program_tables.specs.Asks.{around_tasks, asks_by, behind, level_task};

use lists::Copying;
use program_outcomes::{Outcome, Tasks};
use program_standing::Standings;
use program_used::UsedText;
use ruby_types::{CPath, Task, copy_task};
use std::alloc::{AllocError, Global};

/// Adds the task of a constant that has a file.
fn push_level(tasks: &mut Vec<Task>, standings: &Standings, path: CPath) -> Result<(), AllocError>
    ensures { OnOk result (tasks.new.items ≡ tasks.old.items ++ level_task standings.now.spelled path) }
{
    if standings.has_file(&path) {
        tasks.push(Task::Const(path))?;
    }
    Ok(())
}

/// Adds the task of each namespace around a constant that has a file, from the outermost on.
fn push_around(
    alloc: Global,
    tasks: &mut Vec<Task>,
    standings: &Standings,
    constant: &CPath,
) -> Result<(), AllocError>
    ensures { OnOk result (tasks.new.items
        ≡ tasks.old.items ++ around_tasks standings.now.spelled constant.now) }
{
    let names = constant.as_slice();
    let above = names.len().saturating_sub(1);
    'places: for place in 0..above {
        push_level(
            tasks,
            standings,
            CPath::from_slice(alloc, &names[..place + 1])?,
        )?;
    }
    Ok(())
}

/// Adds all tasks but the first.
fn push_behind(tasks: &mut Vec<Task>, all: &[Task]) -> Result<(), AllocError>
    ensures { OnOk result (tasks.new.items ≡ tasks.old.items ++ behind all.now) }
{
    match all {
        [] => Ok(()),
        [_, rest @ ..] => push_all(tasks, rest),
    }
}

fn push_all(tasks: &mut Vec<Task>, all: &[Task]) -> Result<(), AllocError>
    ensures { OnOk result (tasks.new.items ≡ tasks.old.items ++ all.now) }
{
    'tasks: for task in all {
        tasks.push(copy_task(task)?)?;
    }
    Ok(())
}

/// What loading a file without fault asks for: its enclosing namespaces that have files, and then its own tasks.
fn asks_in(
    alloc: Global,
    standings: &Standings,
    constant: &CPath,
    all: &[Task],
) -> Result<Tasks, AllocError>
    ensures { IfOk result (λ tasks. tasks
        ≡ around_tasks standings.now.spelled constant.now ++ behind all.now) }
{
    let mut tasks = Vec::new(alloc);
    push_around(alloc, &mut tasks, standings, constant)?;
    push_behind(&mut tasks, all)?;
    Ok(Tasks::from_vec(tasks))
}

/// What loading a file asks for, where it is used and not at fault.
fn asks_at(
    alloc: Global,
    standings: &Standings,
    text: &Option<UsedText>,
    outcome: &Option<Outcome>,
) -> Result<Option<Tasks>, AllocError>
    ensures { IfOk result (λ tasks. tasks ≡ spec.asks_at standings.now.spelled text.now outcome.now) }
{
    match (text, outcome) {
        (Some(used), Some(outcome)) if outcome.fault.is_none() => Ok(Some(asks_in(
            alloc,
            standings,
            &used.constant,
            outcome.tasks.as_slice(),
        )?)),
        _ => Ok(None),
    }
}

/// What loading each of the files asks for, where it is used and not at fault. An error where memory runs out.
pub fn asks_of(
    alloc: Global,
    standings: &Standings,
    texts: &[Option<UsedText>],
    outcomes: &[Option<Outcome>],
) -> Result<Vec<Option<Tasks>>, AllocError>
    requires { length outcomes.now ≡ length texts.now }
    ensures { IfOk result (λ asks. asks.items ≡ spec.all_asks standings.now.spelled texts.now outcomes.now) }
{
    let mut asks = Vec::new(alloc);
    'places: for place in 0..texts.len() {
        asks.push(asks_at(alloc, standings, &texts[place], &outcomes[place])?)?;
    }
    Ok(asks)
}
