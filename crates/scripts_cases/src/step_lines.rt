//! The lines that tell steps.

use std::alloc::{AllocError, Global};
use trace_lines::{Step, bad_line, log_line, step_line};

// A step that names nothing.
fn plain_step(name: &str) -> Option<Step<'static>> {
    match name {
        "Idle" => Some(Step::Idle),
        "Waits" => Some(Step::Waits),
        "Share" => Some(Step::Share),
        "CheckSame" => Some(Step::CheckSame),
        "CheckDiffers" => Some(Step::CheckDiffers),
        "SeekUnload" => Some(Step::SeekUnload),
        "TakeUnload" => Some(Step::TakeUnload),
        "ReloadNone" => Some(Step::ReloadNone),
        "Release" => Some(Step::Release),
        "ReleaseWaits" => Some(Step::ReleaseWaits),
        "Resume" => Some(Step::Resume),
        "Begin" => Some(Step::Begin),
        "Unshare" => Some(Step::Unshare),
        _ => None,
    }
}

fn number_of(word: &str) -> Option<u32> {
    match word.parse::<u32>() {
        Ok(number) => Some(number),
        Err(_) => None,
    }
}

// A step with a task, a generation, or a status and a body.
fn step_with<'a>(name: &str, operand: &'a str) -> Option<Step<'a>> {
    match name {
        "LookFound" => Some(Step::LookFound(operand.as_bytes())),
        "LookMissing" => Some(Step::LookMissing(operand.as_bytes())),
        "SeekLoad" => Some(Step::SeekLoad(operand.as_bytes())),
        "TakeLoad" => Some(Step::TakeLoad(operand.as_bytes())),
        "Define" => Some(Step::Define(operand.as_bytes())),
        "Reload" => Some(Step::Reload(number_of(operand)?)),
        "Refuse" => {
            let (status, body) = operand.split_once(' ')?;
            Some(Step::Refuse(number_of(status)?, body.as_bytes()))
        }
        "End" => {
            let (status, rest) = operand.split_once(' ')?;
            let (generation, body) = rest.split_once(' ')?;
            Some(Step::End(number_of(status)?, number_of(generation)?, body.as_bytes()))
        }
        _ => None,
    }
}

fn step_of(text: &str) -> Option<Step<'_>> {
    match text.split_once(' ') {
        None => plain_step(text),
        Some((name, operand)) => step_with(name, operand),
    }
}

/// The line of a step of a seat; of `log TEXT` and `bad N` too.
pub fn line_of(alloc: Global, case: &str) -> Result<Vec<u8>, AllocError> {
    let none = Vec::from_slice(alloc, b"no such step");
    let Some((first, rest)) = case.split_once(' ') else {
        return none;
    };
    if first == "log" {
        return Vec::from_slice(alloc, log_line(alloc, rest.as_bytes())?.as_bytes());
    }
    let number = number_of(if first == "bad" { rest } else { first });
    match (number, step_of(rest)) {
        (Some(line), _) if first == "bad" => Vec::from_slice(
            alloc,
            bad_line(alloc, line)?.as_bytes(),
        ),
        (Some(seat), Some(step)) if seat < 64 => {
            Vec::from_slice(alloc, step_line(alloc, seat, step)?.as_bytes())
        }
        _ => none,
    }
}
