//! What the program of a snapshot tells when it is asked.
use crate::told::{put_line, put_resolved, put_tasks, refusal_line};
use lists::Listed;
use outside::{FileEntry, Snapshot};
use plain_text::push_path;
use program_index::{Program, Resolved};
use ruby_builtin_base::error_text;
use ruby_types::{CPath, Text};
use std::alloc::{AllocError, Global};

fn text_of(alloc: Global, text: &str) -> Result<Text, AllocError> {
    Text::from_bytes(alloc, text.as_bytes())
}

/// The path that is printed like this.
fn path_of(alloc: Global, printed: &str) -> Result<CPath, AllocError> {
    let mut names = Vec::new(alloc);
    for name in printed.split("::") {
        names.push(text_of(alloc, name)?)?;
    }
    CPath::from_vec(alloc, names)
}

/// The number of the file with this path; past the last where there is none.
fn number_of(files: &[FileEntry], path: &Text) -> u32 {
    let mut number = 0;
    while number < files.len() && files[number].path.as_bytes() != path.as_bytes() {
        number += 1;
    }
    u32::try_from(number).unwrap_or(u32::MAX)
}

/// The fault of a file, its constant and its tasks.
fn put_file(
    alloc: Global,
    told: &mut Vec<u8>,
    program: &Program,
    path: &Text,
) -> Result<(), AllocError> {
    let number = number_of(program.snapshot().files.as_slice(), path);
    if let Some(fault) = program.fault_of(number) {
        put_line(told, error_text(alloc, fault)?.as_bytes())?;
    }
    match program.constant_at(path) {
        Some(constant) => push_path(told, constant)?,
        None => told.extend_from_slice(b"unused")?,
    }
    put_tasks(told, program.tasks_of_file(number).as_slice())
}

/// What a name is found as in scopes.
fn put_found(
    alloc: Global,
    told: &mut Vec<u8>,
    program: &Program,
    name: &str,
    scopes: &str,
) -> Result<(), AllocError> {
    let mut paths = Listed::new(alloc);
    for scope in scopes.split_ascii_whitespace() {
        paths.push(path_of(alloc, scope)?)?;
    }
    let resolved = program.resolve(alloc, &paths, &text_of(alloc, name)?)?;
    let path = match &resolved {
        Resolved::Other(file, _) | Resolved::Fault(file) => program.path_of(*file),
        _ => None,
    };
    put_resolved(
        told,
        &resolved,
        path.map_or(b"".as_slice(), |it| it.as_bytes()),
    )
}

/// The answers of a program to the questions of a paragraph.
fn answers(alloc: Global, program: &Program, paragraph: &str) -> Result<Vec<u8>, AllocError> {
    let mut told = Vec::new(alloc);
    for line in paragraph.lines() {
        match line.split_once(' ') {
            Some(("ask", path)) => {
                put_file(alloc, &mut told, program, &text_of(alloc, path)?)?;
            }
            Some(("find", question)) => {
                let (name, scopes) = question.split_once(" in ").unwrap_or((question, ""));
                put_found(alloc, &mut told, program, name, scopes)?;
            }
            _ => {}
        }
    }
    Ok(told)
}

/// What is told of a snapshot: why it has no program, or the answers to the questions of a paragraph.
pub fn told_of(alloc: Global, snapshot: Snapshot, paragraph: &str) -> Result<Vec<u8>, AllocError> {
    match Program::build(alloc, snapshot) {
        Ok(program) => answers(alloc, &program, paragraph),
        Err(fault) => refusal_line(alloc, fault),
    }
}
