ghost use Rattle.std.specs.Prelude.{◌≡◌, IfOk};
ghost use Rattle.ruby_runs.specs.Runs as runs;
ghost use Rattle.ruby_runs.specs.Runs.{run_limits};
ghost use Rattle.ruby_machine_names.specs.Steps.{here_of};

use lists::Copying;
use program_lookups::Scopes;
use ruby_machine_names::HereCode;
use ruby_types::Text;
use std::alloc::AllocError;

/// The turns of a task.
pub const TASK_TURNS: u32 = 100_000;

/// Code of a file, in these scopes.
pub fn file_here(file: &Text, scopes: Scopes) -> Result<HereCode, AllocError>
    ensures { IfOk result (λ here. here_of here ≡ runs.file_here run_limits file.now scopes) }
{
    Ok(HereCode {
        file: Some(file.copy()?),
        scopes,
        limit: TASK_TURNS,
    })
}
