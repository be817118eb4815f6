ghost use Rattle.std.specs.Prelude.{◌≡◌, ◌++◌, Some, IfOk, OnOk};
ghost use Rattle.std.specs.Ordering.{is_eq};
ghost use Rattle.load_logs.specs.Logs as spec;
ghost use Rattle.program_index.specs.Lookups.{constant_at};
ghost use Rattle.load_logs.specs.Logs.{text_for, texts_for};
ghost use Rattle.tree_scan_sites.specs.Paths.{path_order};

use app_config::LoadLine;
use lists::Copying;
use program_index::Program;
use ruby_types::{CPath, Task, Text, TextList};
use std::alloc::{AllocError, Global};
use std::cmp::Ordering;
use tree_scan_sites::compare_paths;

/// Whether a line names a constant.
fn names(line: &LoadLine, constant: &CPath) -> bool
    ensures { result ≡ is_eq (path_order line.now.constant constant.now) }
{
    matches!(
        compare_paths(line.constant.as_slice(), constant.as_slice()),
        Ordering::Equal
    )
}

fn push_text(logs: &mut TextList, line: &LoadLine, constant: &CPath) -> Result<(), AllocError>
    ensures { OnOk result (logs.new ≡ logs.old ++ text_for constant.now line.now) }
{
    if names(line, constant) {
        logs.push(line.text.copy()?)?;
    }
    Ok(())
}

fn push_texts(logs: &mut TextList, lines: &[LoadLine], constant: &CPath) -> Result<(), AllocError>
    ensures { OnOk result (logs.new ≡ logs.old ++ texts_for lines.now (Some constant.now)) }
{
    'lines: for line in lines {
        push_text(logs, line, constant)?;
    }
    Ok(())
}

fn push_file_logs(logs: &mut TextList, program: &Program, path: &Text) -> Result<(), AllocError>
    ensures { OnOk result (logs.new ≡ logs.old
        ++ texts_for program.now.config.on_load (constant_at program.now path.now)) }
{
    match program.constant_at(path) {
        Some(constant) => push_texts(logs, program.config().on_load.as_slice(), constant),
        None => Ok(()),
    }
}

/// Adds what is logged where a task of the program is defined. An error where memory runs out.
pub fn push_logs(logs: &mut TextList, program: &Program, task: &Task) -> Result<(), AllocError>
    ensures { OnOk result (logs.new ≡ logs.old ++ spec.logs_of program.now task.now) }
{
    match task {
        Task::File(path) => push_file_logs(logs, program, path),
        Task::Const(_) | Task::Ancestors(_) | Task::Request(_) => Ok(()),
    }
}

/// What is logged where a task of the program is defined. An error where memory runs out.
pub fn logs_of(alloc: Global, program: &Program, task: &Task) -> Result<TextList, AllocError>
    ensures { IfOk result (λ logs. logs ≡ spec.logs_of program.now task.now) }
{
    let mut logs = TextList::new(alloc);
    push_logs(&mut logs, program, task)?;
    Ok(logs)
}
