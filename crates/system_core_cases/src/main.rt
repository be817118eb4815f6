//! Plays events over systems of letters, as its standard input tells them, and says how many answers hold.
//!
//! A paragraph begins with the number of its seats. Each line after it is a step and its answer, worked out by hand:
//!
//! ```text
//! 2 seats
//! 1 share: done
//! 1 take unload: done
//! 1 reload 7: done
//! 2 share: BusyShare
//! generation: 1
//! ```
//!
//! A step's seat is counted from 1. Its answer is `done`, the guard that refuses it, or `no step` where its caller's
//! condition doesn't hold. `generation`, `length` and `value A` are read. A line that begins with `--` is a remark.
#![tactic(auto)]

mod letters;
mod player;
mod reading;

use crate::letters::Letters;
use crate::player::{Answer, play};
use crate::reading::{Line, read_line};
use std::alloc::{AllocError, Global};
use std::io;
use system_core::System;

// What a line gives.
fn say(
    alloc: Global,
    system: &mut Option<System<Letters>>,
    line: Line,
) -> Result<String, AllocError> {
    if let Line::Seats(seats) = line {
        if seats == 0 || seats > 64 {
            return String::from_str(alloc, "no such number");
        }
        *system = Some(System::new(alloc, seats)?);
        return String::from_str(alloc, "new");
    }
    let Some(system) = system else {
        return String::from_str(alloc, "no system");
    };
    match line {
        Line::Step(seat, step) => {
            if seat as usize >= system.seat_count() {
                return String::from_str(alloc, "no such seat");
            }
            match play(system, seat, step)? {
                Answer::Done => String::from_str(alloc, "done"),
                Answer::NoStep => String::from_str(alloc, "no step"),
                Answer::Refused(guard) => format!(in alloc; "{guard:?}"),
            }
        }
        Line::Generation => format!(in alloc; "{}", system.generation()),
        Line::Length => format!(in alloc; "{}", system.length()),
        Line::Value(letter) => match system.value(&letter) {
            None => String::from_str(alloc, "none"),
            Some(value) => format!(in alloc; "{value}"),
        },
        Line::Seats(_) | Line::Other => String::from_str(alloc, "no such line"),
    }
}

fn main(rt: HostRuntime) -> io::Result<()> {
    let alloc = rt.alloc();
    let mut system = None;
    let mut held = 0u32;
    let mut failed = 0u32;
    for line in rt.lines(alloc) {
        let line = line?;
        if line.is_empty() || line.as_str().starts_with("--") {
            continue;
        }
        let (told, wanted) = line
            .as_str()
            .split_once(": ")
            .unwrap_or((line.as_str(), "new"));
        let said = say(alloc, &mut system, read_line(told))?;
        if said.as_str() == wanted {
            held = held.saturating_add(1);
        } else {
            failed = failed.saturating_add(1);
            println!(rt; "{told}: {wanted} is answered by {said}")?;
        }
    }
    println!(rt; "{held} answers hold, {failed} don't")?;
    Ok(())
}
