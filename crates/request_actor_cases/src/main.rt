//! Tries `request_actor` on requests of two tasks: what is asked for after each answer, worked out by hand.
//!
//! A case is a paragraph of two lines: a request and its answers; and what is asked for after each. An answer that
//! doesn't fit what was asked for gives `no answer`, and ends the case.
//!
//! ```text
//! first: start done same done found=3 done done
//! = share check begin look=A end=3 unshare finished
//! ```
#![tactic(auto)]

mod pair;
mod words;

use crate::pair::{Pair, Wish};
use crate::words::{answer_of, wish_of, word_of};
use request_actor::Actor;
use std::alloc::{AllocError, Global};
use std::io;

// What is asked for after each answer.
fn asked(alloc: Global, wish: Wish, answers: &str) -> Result<String, AllocError> {
    let mut actor: Actor<Pair> = Actor::new(wish);
    let mut text = String::new(alloc);
    for word in answers.split(' ') {
        if !text.is_empty() {
            text.push_str(" ")?;
        }
        let Some(answered) = answer_of(word) else {
            text.push_str("no word")?;
            break;
        };
        if !actor.takes(&answered) {
            text.push_str("no answer")?;
            break;
        }
        let op = actor.next(&3, answered)?;
        text.push_str(word_of(alloc, &op)?.as_str())?;
    }
    Ok(text)
}

// What is found of a case's first line.
fn found(alloc: Global, case: &str) -> Result<String, AllocError> {
    let Some((name, answers)) = case.split_once(": ") else {
        return String::from_str(alloc, "no request");
    };
    match wish_of(name) {
        None => String::from_str(alloc, "no request"),
        Some(wish) => asked(alloc, wish, answers),
    }
}

fn main(rt: HostRuntime) -> io::Result<()> {
    let alloc = rt.alloc();
    let mut case = String::new(alloc);
    let mut held = 0u32;
    let mut failed = 0u32;
    for line in rt.lines(alloc) {
        let line = line?;
        let Some(wanted) = line.as_str().strip_prefix("= ") else {
            case = line;
            continue;
        };
        let found = found(alloc, case.as_str())?;
        if found.as_str() == wanted {
            held = held.saturating_add(1);
        } else {
            failed = failed.saturating_add(1);
            println!(rt;
                "{}\n{}\nfound {}\n",
                case.as_str(),
                line.as_str(),
                found.as_str()
            )?;
        }
    }
    println!(rt; "{held} cases hold, {failed} don't")?;
    Ok(())
}
