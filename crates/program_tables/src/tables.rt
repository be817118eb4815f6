ghost use Rattle.std.specs.Prelude.{◌≡◌, ◌++◌, ◌<◌, ◌^◌, List, length, map, IfOk, OnOk};
ghost use Rattle.std.specs.List.{flat_map};
ghost use Rattle.outside.specs.declared.files.FileEntry.{FileEntry};
ghost use Rattle.program_used.specs.Rows.{all_used};
ghost use Rattle.program_outcomes.specs.Outcomes.{HaveOutcomes, listed};
ghost use Rattle.program_tables.specs.Tables as spec;
ghost use Rattle.program_tables.specs.Tables.{constant_in, owned_task, owned_tasks, tables_of};

use lists::Copying;
use program_outcomes::Outcome;
use program_owners::Owned;
use program_standing::Standings;
use program_used::UsedText;
use ruby_types::{CPath, Task};
use std::alloc::{AllocError, Global};

/// Adds the constant of a task, with the number of its file.
fn push_task(owned: &mut Vec<Owned>, file: u32, task: &Task) -> Result<(), AllocError>
    ensures { OnOk result (owned.new.items ≡ owned.old.items ++ owned_task file task.now) }
{
    match task {
        Task::Const(path) => {
            owned.push(Owned {
                path: path.copy()?,
                file,
            })?;
            Ok(())
        }
        Task::File(_) | Task::Ancestors(_) | Task::Request(_) => Ok(()),
    }
}

/// Adds the constants of a file's tasks.
fn push_tasks(owned: &mut Vec<Owned>, file: u32, tasks: &[Task]) -> Result<(), AllocError>
    ensures { OnOk result (owned.new.items ≡ owned.old.items ++ owned_tasks file tasks.now) }
{
    'tasks: for task in tasks {
        push_task(owned, file, task)?;
    }
    Ok(())
}

fn push_outcome(
    owned: &mut Vec<Owned>,
    file: u32,
    outcome: &Option<Outcome>,
) -> Result<(), AllocError>
    ensures { OnOk result (owned.new.items
        ≡ owned.old.items ++ owned_tasks file (spec.tasks_of outcome.now)) }
{
    match outcome {
        None => Ok(()),
        Some(outcome) => push_tasks(owned, file, outcome.tasks.as_slice()),
    }
}

/// The constants that files own, each with the file's number.
fn owned_in(alloc: Global, outcomes: &[Option<Outcome>]) -> Result<Vec<Owned>, AllocError>
    requires { length outcomes.now < 2 ^ 32 }
    ensures { IfOk result (λ owned. owned.items ≡ spec.owned_in 0 outcomes.now) }
{
    let mut owned = Vec::new(alloc);
    'places: for place in 0..outcomes.len() {
        push_outcome(&mut owned, place as u32, &outcomes[place])?;
    }
    Ok(owned)
}

fn push_constant(constants: &mut Vec<CPath>, text: &Option<UsedText>) -> Result<(), AllocError>
    ensures { OnOk result (constants.new.items ≡ constants.old.items ++ constant_in text.now) }
{
    if let Some(used) = text {
        constants.push(used.constant.copy()?)?;
    }
    Ok(())
}

/// The constants that files spell.
fn spelled_in(alloc: Global, texts: &[Option<UsedText>]) -> Result<Vec<CPath>, AllocError>
    ensures { IfOk result (λ constants. constants.items ≡ flat_map constant_in texts.now) }
{
    let mut constants = Vec::new(alloc);
    'texts: for text in texts {
        push_constant(&mut constants, text)?;
    }
    Ok(constants)
}

fn has_fault(outcome: &Option<Outcome>) -> bool
    ensures { result ≡ spec.has_fault outcome.now }
{
    match outcome {
        None => false,
        Some(outcome) => outcome.fault.is_some(),
    }
}

/// Which files are at fault, by their numbers.
fn faults_in(alloc: Global, outcomes: &[Option<Outcome>]) -> Result<Vec<bool>, AllocError>
    ensures { IfOk result (λ marks. marks.items ≡ map spec.has_fault outcomes.now) }
{
    let mut marks = Vec::new(alloc);
    'outcomes: for outcome in outcomes {
        marks.push(has_fault(outcome))?;
    }
    Ok(marks)
}

/// What stands at the paths of an application whose files have these texts, faults and tasks. An error where memory
/// runs out.
pub fn standings_of(
    alloc: Global,
    texts: &[Option<UsedText>],
    outcomes: &[Option<Outcome>],
) -> Result<Standings, AllocError>
    requires { length outcomes.now < 2 ^ 32 }
    ensures { IfOk result (λ standings. (files : List FileEntry) → length texts.now ≡ length files →
        HaveOutcomes (listed (all_used files texts.now)) (all_used files texts.now) outcomes.now →
        standings ≡ tables_of (all_used files texts.now)) }
{
    let owned = owned_in(alloc, outcomes)?;
    let spelled = spelled_in(alloc, texts)?;
    let marks = faults_in(alloc, outcomes)?;
    Standings::new(alloc, owned, spelled, marks)
}
