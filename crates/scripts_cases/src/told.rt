//! What a script tells, as a text.

use plain_text::push_quoted;
use script_lines::{Instruction, LineFault, Script, Told};
use std::alloc::{AllocError, Global};

fn push_told(alloc: Global, text: &mut Vec<u8>, told: &Told) -> Result<(), AllocError> {
    let line = told.line;
    match &told.instruction {
        Instruction::Write(path, content) => {
            text.extend_from_slice(format!(in alloc; "{line} write ")?.as_bytes())?;
            text.extend_from_slice(path.as_bytes())?;
            text.push(b' ')?;
            push_quoted(text, content.as_bytes())
        }
        Instruction::Remove(path) => {
            text.extend_from_slice(format!(in alloc; "{line} remove ")?.as_bytes())?;
            text.extend_from_slice(path.as_bytes())
        }
        Instruction::Request(seat, target) => {
            text.extend_from_slice(format!(in alloc; "{line} request {seat} ")?.as_bytes())?;
            text.extend_from_slice(target.as_bytes())
        }
        Instruction::Step(seat) => {
            text.extend_from_slice(format!(in alloc; "{line} step {seat}")?.as_bytes())
        }
        Instruction::Finish(seat) => {
            text.extend_from_slice(format!(in alloc; "{line} finish {seat}")?.as_bytes())
        }
    }
}

fn push_fault(alloc: Global, text: &mut Vec<u8>, fault: LineFault) -> Result<(), AllocError> {
    let line = fault.line;
    let kind = fault.kind;
    text.extend_from_slice(format!(in alloc; "{line} {kind:?}")?.as_bytes())
}

/// All that a script tells up to its end or to its first line outside the grammar, with ` / ` between each two.
pub fn all_told(alloc: Global, script: &[u8]) -> Result<Vec<u8>, AllocError> {
    let mut text = Vec::new(alloc);
    if script.len() > 65536 {
        text.extend_from_slice(b"too long")?;
        return Ok(text);
    }
    let mut reader = Script::new(script);
    for place in 0..=script.len() {
        let next = reader.next(alloc);
        if let Ok(None) = &next {
            break;
        }
        if place > 0 {
            text.extend_from_slice(b" / ")?;
        }
        match next {
            Ok(None) => break,
            Ok(Some(told)) => push_told(alloc, &mut text, &told)?,
            Err(fault) => {
                push_fault(alloc, &mut text, fault)?;
                break;
            }
        }
    }
    Ok(text)
}
