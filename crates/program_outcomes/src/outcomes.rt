ghost use Rattle.std.specs.Prelude.{◌≡◌, length, map, IfOk};
ghost use Rattle.std.specs.Option.{option_map};
ghost use Rattle.program_faults.specs.Read.{used, used_all};
ghost use Rattle.program_used.specs.Rows.{all_used};
ghost use Rattle.program_outcomes.specs.Outcomes.{IsOutcome, HasOutcome, HaveOutcomes, listed};

use crate::outcome::Outcome;
use outside::FileEntry;
use program_faults::{ReadFile, UsedFiles, file_fault};
use program_tasks::tasks_by;
use program_used::{UsedText, read_files};
use std::alloc::{AllocError, Global};

/// The fault and the tasks of a file that is used.
fn outcome_of(
    alloc: Global,
    files: &UsedFiles<'_, '_>,
    file: &ReadFile<'_>,
) -> Result<Outcome, AllocError>
    ensures { IfOk result (IsOutcome (used_all files.now.files.now) (used file.now)) }
{
    let fault = file_fault(alloc, files, file)?;
    let tasks = tasks_by(alloc, file, fault.is_some())?;
    Ok(Outcome { fault, tasks })
}

fn outcome_at(
    alloc: Global,
    files: &UsedFiles<'_, '_>,
    file: &Option<ReadFile<'_>>,
) -> Result<Option<Outcome>, AllocError>
    ensures { IfOk result (HasOutcome (used_all files.now.files.now) (option_map used file.now)) }
{
    match file {
        None => Ok(None),
        Some(file) => Ok(Some(outcome_of(alloc, files, file)?)),
    }
}

/// The faults and tasks of these files, among all that are used.
fn outcomes_among(
    alloc: Global,
    files: &UsedFiles<'_, '_>,
    reads: &[Option<ReadFile<'_>>],
) -> Result<Vec<Option<Outcome>>, AllocError>
    ensures { IfOk result (λ outcomes. HaveOutcomes (used_all files.now.files.now)
        (map (option_map used) reads.now) outcomes.items) }
{
    let mut outcomes = Vec::new(alloc);
    'places: for place in 0..reads.len() {
        outcomes.push(outcome_at(alloc, files, &reads[place])?)?;
    }
    Ok(outcomes)
}

/// The faults and tasks of the files that have these texts.
pub fn outcomes_of(
    alloc: Global,
    files: &[FileEntry],
    texts: &[Option<UsedText>],
) -> Result<Vec<Option<Outcome>>, AllocError>
    requires { length texts.now ≡ length files.now }
    ensures { IfOk result (λ outcomes. HaveOutcomes (listed (all_used files.now texts.now))
        (all_used files.now texts.now) outcomes.items) }
{
    let reads = read_files(alloc, files, texts)?;
    let used = UsedFiles::new(alloc, reads.as_slice())?;
    outcomes_among(alloc, &used, reads.as_slice())
}
