//! What is made from a number.

use demo_generator::{
    Schedule, Turn, action_target, controller_text, edited_text, module_path, module_text,
};
use plain_text::push_quoted;
use std::alloc::{AllocError, Global};

fn number_of(word: &str) -> Option<u32> {
    match word.parse::<u32>() {
        Ok(number) => Some(number),
        Err(_) => None,
    }
}

/// A text of this kind and number, in quotes.
pub fn file_text(alloc: Global, case: &str) -> Result<Vec<u8>, AllocError> {
    let mut shown = Vec::new(alloc);
    let (kind, number) = match case.split_once(' ') {
        None => (case, None),
        Some((kind, word)) => (kind, number_of(word)),
    };
    let Some(number) = number else {
        return Ok(shown);
    };
    let text = match kind {
        "path" => module_path(alloc, number)?,
        "module" => module_text(alloc, number)?,
        "edited" => edited_text(alloc, number)?,
        "controller" => controller_text(alloc, number)?,
        "target" => action_target(alloc, number)?,
        _ => return Ok(shown),
    };
    push_quoted(&mut shown, text.as_bytes())?;
    Ok(shown)
}

// Which of the four seats have a request.
fn seats_of(word: &str) -> [bool; 4] {
    match word.as_bytes() {
        [a, b, c, d] => [*a == b'x', *b == b'x', *c == b'x', *d == b'x'],
        _ => [false, false, false, false],
    }
}

fn turn_text(alloc: Global, turn: Turn) -> Result<String, AllocError> {
    match turn {
        Turn::Step(seat) => format!(in alloc; "step {seat}"),
        Turn::Idle(seat) => format!(in alloc; "idle {seat}"),
        Turn::Request(seat, index, None) => format!(in alloc; "request {seat} {index}"),
        Turn::Request(seat, index, Some(value)) => {
            format!(in alloc; "request {seat} {index} edit {value}")
        }
    }
}

/// What the turns of a schedule do, with ` / ` between each two.
pub fn all_turns(alloc: Global, case: &str) -> Result<Vec<u8>, AllocError> {
    let mut text = Vec::new(alloc);
    let Some((modules, turns)) = case.split_once(' ') else {
        return Ok(text);
    };
    let modules = number_of(modules).unwrap_or(0);
    if modules == 0 || modules > 1000 {
        return Ok(text);
    }
    let mut schedule = Schedule::new(modules);
    for word in turns.split(' ') {
        if !text.is_empty() {
            text.extend_from_slice(b" / ")?;
        }
        let turn = schedule.turn(seats_of(word).as_slice());
        text.extend_from_slice(turn_text(alloc, turn)?.as_bytes())?;
    }
    Ok(text)
}
