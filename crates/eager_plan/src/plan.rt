ghost use Rattle.std.specs.Prelude.{◌≡◌, ℕ, ◌<◌, ◌^◌, length, slice_get, Some, IsSome, MatchBool, IfOk};
ghost use Rattle.program_places.specs.Paths.{Path};
ghost use Rattle.tree_scan.specs.Sites.{AreSites, path_at};
ghost use Rattle.eager_order.specs.EagerOrder.{IsBelowRoot};
ghost use Rattle.eager_plan.specs.Plan.{AreEagerFiles};
ghost use Rattle.eager_plan.specs.Chosen.{AreBelowRoots, IsChosen, IsChosenAs, AreChosen};

use crate::roots::roots_of;
use crate::skipped::is_skipped;
use app_config::{Config, PatternIndex};
use eager_order::in_eager_order;
use outside::{FileEntry, Snapshot};
use program_used::used_constants;
use ruby_types::CPath;
use std::alloc::{AllocError, Global};
use tree_scan::Sites;
use tree_scan_roots::RootTable;

/// Whether a file is loaded, by its constant: all that have one are, or those of them that aren't skipped.
fn is_chosen(
    files: &[FileEntry],
    roots: &RootTable,
    skipped: &PatternIndex<'_>,
    only_plan: bool,
    number: usize,
    constant: &Option<CPath>,
) -> bool
    requires within { number < length files.now }
    requires below { IsSome constant.now → IsBelowRoot roots.now (path_at files.now number) }
    ensures { MatchBool result (IsChosenAs roots.now skipped.now files.now only_plan number constant.now)
        (¬ IsChosenAs roots.now skipped.now files.now only_plan number constant.now) }
{
    match constant {
        None => false,
        Some(_) => !only_plan || !is_skipped(files, roots, skipped, number),
    }
}

/// The numbers of the files that are loaded, in the order of the snapshot.
fn chosen_files(
    alloc: Global,
    files: &[FileEntry],
    roots: &RootTable,
    skipped: &PatternIndex<'_>,
    only_plan: bool,
    constants: &[Option<CPath>],
) -> Result<Vec<u32>, AllocError>
    requires few { length files.now < 2 ^ 32 }
    requires sized { length constants.now ≡ length files.now }
    requires below { AreBelowRoots roots.now files.now constants.now }
    ensures { IfOk result (λ numbers. AreChosen (IsChosen roots.now skipped.now files.now only_plan constants.now)
        (length files.now) numbers.items) }
{
    let mut numbers = Vec::new(alloc);
    'files: for number in 0..files.len() {
        if is_chosen(files, roots, skipped, only_plan, number, &constants[number]) {
            numbers.push(number as u32)?;
        }
    }
    Ok(numbers)
}

/// The files that are loaded eagerly, each by its number, in eager order: all that are the file of a constant, or only
/// the plan, those of them that no pattern of `skip_eager` marks. An error where memory runs out.
pub fn eager_files(
    alloc: Global,
    snapshot: &Snapshot,
    config: &Config,
    sites: &Sites,
    only_plan: bool,
) -> Result<Vec<u32>, AllocError>
    requires few { length snapshot.now.files < 2 ^ 32 }
    requires sited { AreSites snapshot.now.files config.now sites.now }
    ensures { IfOk result (λ ordered. AreEagerFiles snapshot.now.files config.now sites.now.spelled only_plan
        ordered.items) }
{
    let files = snapshot.files.as_slice();
    let roots = roots_of(alloc, files, config)?;
    let skipped = PatternIndex::new(alloc, &config.skip_eager)?;
    let constants = used_constants(alloc, sites, files.len())?;
    let chosen = chosen_files(
        alloc,
        files,
        &roots,
        &skipped,
        only_plan,
        constants.as_slice(),
    )?;
    in_eager_order(alloc, snapshot, &roots, chosen.as_slice())
}
