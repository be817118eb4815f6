//! Runs cases of the command `tree` and says which of them don't hold.
//!
//! Standard input has a case in each paragraph, and empty lines between them:
//!
//! ```text
//! a later root is shadowed
//! conf root lib/a
//! file app/models/user.rb
//! file lib/a/user.rb
//! = User file app/models/user.rb
//! = shadowed lib/a/user.rb
//! ```
//!
//! The first line is the case's title. A `conf` line is a line of `config/loader.conf`, which is there where some line
//! of it is, and a `file` line the path of a file. The `=` lines are what `tree` must say: its listing, or the one line
//! that tells why the application is refused. Any other line begins a remark and counts for nothing.
#![tactic(auto)]

mod case;

use crate::case::Case;
use std::alloc::Global;
use std::{io, str};

/// Judges the case of a paragraph, and says so where it doesn't hold.
fn judge<R: Print>(rt: &R, alloc: Global, paragraph: &str) -> io::Result<bool> {
    match Case::read(alloc, paragraph)?.failure(alloc)? {
        None => Ok(true),
        Some(said) => {
            let said = str::from_utf8(said.as_slice()).unwrap_or("no text");
            println!(rt; "of this case\n{paragraph}\n`tree` says\n{said}")?;
            Ok(false)
        }
    }
}

fn run<R: Input + Print + AllocGlobal>(rt: &R) -> io::Result<()> {
    let alloc = rt.alloc();
    let text = io::read_to_string(alloc, rt.reader())?;
    let mut held = 0u64;
    let mut failed = 0u64;
    for paragraph in text.as_str().split("\n\n") {
        if judge(rt, alloc, paragraph)? {
            held = held.saturating_add(1);
        } else {
            failed = failed.saturating_add(1);
        }
    }
    println!(rt; "{held} held, {failed} failed")
}

fn main(rt: HostRuntime) -> io::Result<()> {
    run(&rt)
}
