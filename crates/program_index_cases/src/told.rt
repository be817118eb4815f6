//! How constants, tasks, answers and refusals are told.
use plain_text::push_path;
use program_index::{ProgramFault, Resolved};
use ruby_types::Task;
use std::alloc::{AllocError, Global};
use tree_report::{ExceededLimit, Refusal};
use tree_scan::ScanFault;

/// Adds a line.
pub fn put_line(told: &mut Vec<u8>, line: &[u8]) -> Result<(), AllocError> {
    told.extend_from_slice(line)?;
    told.push(b'\n')?;
    Ok(())
}

fn put_task(told: &mut Vec<u8>, task: &Task) -> Result<(), AllocError> {
    match task {
        Task::File(path) => told.extend_from_slice(path.as_bytes()),
        Task::Const(path) => push_path(told, path),
        Task::Ancestors(path) => {
            told.extend_from_slice(b"ancestors of ")?;
            push_path(told, path)
        }
        Task::Request(_) => told.extend_from_slice(b"a request"),
    }
}

/// The names of tasks, with a colon before them and commas between them.
pub fn put_tasks(told: &mut Vec<u8>, tasks: &[Task]) -> Result<(), AllocError> {
    let mut between = b": ".as_slice();
    for task in tasks {
        told.extend_from_slice(between)?;
        put_task(told, task)?;
        between = b", ".as_slice();
    }
    told.push(b'\n')?;
    Ok(())
}

/// What a name is found as.
pub fn put_resolved(
    told: &mut Vec<u8>,
    resolved: &Resolved,
    path: &[u8],
) -> Result<(), AllocError> {
    match resolved {
        Resolved::Own(task) => {
            told.extend_from_slice(b"own ")?;
            put_task(told, task)?;
        }
        Resolved::Other(_, task) => {
            told.extend_from_slice(b"other ")?;
            told.extend_from_slice(path)?;
            told.push(b' ')?;
            put_task(told, task)?;
        }
        Resolved::Namespace(constant) => {
            told.extend_from_slice(b"namespace ")?;
            push_path(told, constant)?;
        }
        Resolved::Fault(_) => {
            told.extend_from_slice(b"fault ")?;
            told.extend_from_slice(path)?;
        }
        Resolved::Missing => told.extend_from_slice(b"missing")?,
    }
    told.push(b'\n')?;
    Ok(())
}

/// The line of a refusal.
pub fn refusal_line(alloc: Global, fault: ProgramFault) -> Result<Vec<u8>, AllocError> {
    let refusal = match fault {
        ProgramFault::Limit(limit, number) => Refusal::Limit(ExceededLimit { limit, number }),
        ProgramFault::Config(fault) => Refusal::Configuration(fault),
        ProgramFault::Scan(ScanFault::BadName(path)) => Refusal::BadName(path),
        ProgramFault::Scan(ScanFault::TwoRoots(path)) => Refusal::TwoRoots(path),
        ProgramFault::Scan(ScanFault::Memory) | ProgramFault::Memory => return Err(AllocError),
    };
    refusal.line(alloc)
}
