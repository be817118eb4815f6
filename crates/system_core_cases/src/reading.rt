//! Reading a line.

use crate::letters::Letter;
use crate::player::Step;

/// What a line asks for.
#[derive(Clone, Copy, Debug, PartialEq, Eq)]
pub enum Line {
    Seats(u32),
    /// A seat, counted from 0, and its step.
    Step(u32, Step),
    Generation,
    Length,
    Value(Letter),
    Other,
}

fn letter_of(word: &str) -> Option<Letter> {
    match word {
        "A" => Some(Letter::A),
        "B" => Some(Letter::B),
        "C" => Some(Letter::C),
        _ => None,
    }
}

// The step that one word tells.
fn plain_step(word: &str) -> Option<Step> {
    match word {
        "share" => Some(Step::Share),
        "unshare" => Some(Step::Unshare),
        "yield" => Some(Step::Yield),
        "retake" => Some(Step::Retake),
        "release" => Some(Step::Release),
        "resume" => Some(Step::Resume),
        "end" => Some(Step::End),
        _ => None,
    }
}

// The step that a word tells with the one behind it.
fn step_with(word: &str, behind: &str) -> Option<Step> {
    match word {
        "seek" => match behind {
            "unload" => Some(Step::SeekUnload),
            _ => letter_of(behind).map(Step::SeekLoad),
        },
        "take" => match behind {
            "unload" => Some(Step::TakeUnload),
            _ => letter_of(behind).map(Step::TakeLoad),
        },
        "define" => letter_of(behind).map(Step::Define),
        "begin" => letter_of(behind).map(Step::Begin),
        "reload" => behind.parse().ok().map(Step::Reload),
        "refuse" => match behind {
            "tree" => Some(Step::RefuseTree),
            "memory" => Some(Step::RefuseMemory),
            _ => None,
        },
        _ => None,
    }
}

fn step_of(told: &str) -> Option<Step> {
    match told.split_once(' ') {
        None => plain_step(told),
        Some((word, behind)) => step_with(word, behind),
    }
}

/// Reads a line without its answer.
pub fn read_line(told: &str) -> Line {
    let Some((word, behind)) = told.split_once(' ') else {
        return match told {
            "generation" => Line::Generation,
            "length" => Line::Length,
            _ => Line::Other,
        };
    };
    if word == "value" {
        return letter_of(behind).map_or(Line::Other, Line::Value);
    }
    let Ok(number) = word.parse::<u32>() else {
        return Line::Other;
    };
    if behind == "seats" {
        return Line::Seats(number);
    }
    match (number.checked_sub(1), step_of(behind)) {
        (Some(seat), Some(step)) => Line::Step(seat, step),
        _ => Line::Other,
    }
}
