//! Tries the crates that scripts and replays are made of on the cases of its standard input, which were worked out by
//! hand, and says how many hold.
//!
//! A case is a paragraph of two lines: a kind and a text; and behind `= ` what is wanted of it.
//!
//! | Kind | Text | Wanted |
//! |---|---|---|
//! | `script` | the lines of a script, with ` / ` between each two | what they tell, with the same between each two |
//! | `line` | a seat counted from 0, a step, and its task, or its numbers and its body | the line that tells it |
//! | `turns` | a number of modules, and each turn's seats, `x` where one has a request | what each turn does |
//! | `file` | `path`, `module`, `edited`, `controller` or `target`, and a number | the text, in quotes |
//!
//! Of a script each instruction is told with the number of its line, its seat counted from 0 and a file's content in
//! quotes; the first line outside the grammar with its number and what is wrong with it.
#![tactic(auto)]

mod drawn;
mod step_lines;
mod told;

use crate::drawn::{all_turns, file_text};
use crate::step_lines::line_of;
use crate::told::all_told;
use std::alloc::{AllocError, Global};
use std::io;

// The lines of a case, each ended by LF but the last.
fn script_of(alloc: Global, case: &str) -> Result<Vec<u8>, AllocError> {
    let mut script = Vec::new(alloc);
    let mut is_first = true;
    for line in case.split(" / ") {
        if !is_first {
            script.push(b'\n')?;
        }
        script.extend_from_slice(line.as_bytes())?;
        is_first = false;
    }
    Ok(script)
}

// What is found of a case's first line.
fn found(alloc: Global, case: &str) -> Result<Vec<u8>, AllocError> {
    let Some((kind, text)) = case.split_once(": ") else {
        return Vec::from_slice(alloc, b"no kind");
    };
    match kind {
        "script" => {
            let script = script_of(alloc, text)?;
            all_told(alloc, script.as_slice())
        }
        "line" => line_of(alloc, text),
        "turns" => all_turns(alloc, text),
        "file" => file_text(alloc, text),
        _ => Vec::from_slice(alloc, b"no such kind"),
    }
}

fn main(rt: HostRuntime) -> io::Result<()> {
    let alloc = rt.alloc();
    let mut case = String::new(alloc);
    let mut held = 0u32;
    let mut failed = 0u32;
    for line in rt.lines(alloc) {
        let line = line?;
        let Some(wanted) = line.as_str().strip_prefix("= ") else {
            case = line;
            continue;
        };
        let found = found(alloc, case.as_str())?;
        if found.as_slice() == wanted.as_bytes() {
            held = held.saturating_add(1);
        } else {
            failed = failed.saturating_add(1);
            let found = std::str::from_utf8(found.as_slice()).unwrap_or("no text");
            println!(rt; "{}\n{}\nfound {found}\n", case.as_str(), line.as_str())?;
        }
    }
    println!(rt; "{held} cases hold, {failed} don't")?;
    Ok(())
}
