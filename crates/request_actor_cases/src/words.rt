//! Reading answers, and showing operations.

use crate::pair::{Pair, Wish};
use request_actor::{Answered, Op};
use std::alloc::{AllocError, Global};
use system_events::{Cause, Want};

/// The answers of a pair's requests.
pub type Answer = Answered<u64, u64, Cause<Pair>>;

/// The request of this name.
pub fn wish_of(word: &str) -> Option<Wish> {
    match word {
        "nothing" => Some(Wish::Nothing),
        "first" => Some(Wish::First),
        "both" => Some(Wish::Both),
        _ => None,
    }
}

/// The answer of this word: `found=3` and `failed=404` have a number.
pub fn answer_of(word: &str) -> Option<Answer> {
    match word {
        "start" => Some(Answered::Start),
        "done" => Some(Answered::Done),
        "same" => Some(Answered::Same),
        "differs" => Some(Answered::Differs),
        "waits" => Some(Answered::Waits),
        "missing" => Some(Answered::Missing),
        "tree" => Some(Answered::Fault(Cause::Tree)),
        "memory" => Some(Answered::Fault(Cause::Memory)),
        _ => answer_with(word),
    }
}

fn answer_with(word: &str) -> Option<Answer> {
    let (name, number) = word.split_once('=')?;
    let number = match number.parse::<u64>() {
        Ok(number) => number,
        Err(_) => return None,
    };
    match name {
        "found" => Some(Answered::Found(number)),
        "failed" => Some(Answered::Failed(number)),
        _ => None,
    }
}

/// An operation as a word, with its task or its reply behind it.
pub fn word_of(alloc: Global, op: &Op<Pair>) -> Result<String, AllocError> {
    match op {
        Op::Share => String::from_str(alloc, "share"),
        Op::Check => String::from_str(alloc, "check"),
        Op::Take(Want::Unload) => String::from_str(alloc, "take"),
        Op::Take(Want::Load(task)) => format!(in alloc; "take={task:?}"),
        Op::Reload => String::from_str(alloc, "reload"),
        Op::Release => String::from_str(alloc, "release"),
        Op::Resume => String::from_str(alloc, "resume"),
        Op::Begin => String::from_str(alloc, "begin"),
        Op::Look(task) => format!(in alloc; "look={task:?}"),
        Op::Load(task) => format!(in alloc; "load={task:?}"),
        Op::End(reply) => format!(in alloc; "end={reply}"),
        Op::Refuse(Cause::Tree) => String::from_str(alloc, "refuse=tree"),
        Op::Refuse(_) => String::from_str(alloc, "refuse"),
        Op::Unshare => String::from_str(alloc, "unshare"),
        Op::Finished => String::from_str(alloc, "finished"),
    }
}
