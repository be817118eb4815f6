//! Builds the programs of the cases of its standard input, which were worked out by hand, asks them, and says how many
//! hold.
//!
//! A case is a paragraph:
//!
//! ```text
//! a class that is opened as a module
//! file app/lib/a.rb
//! | class A
//! | end
//! file app/lib/a/b.rb
//! | module A
//! |   B = 1
//! | end
//! ask app/lib/a/b.rb
//! = TypeError: A is not a module (app/lib/a/b.rb)
//! = A::B: app/lib/a/b.rb, A::B, ancestors of A::B
//! find B in A::B A
//! = fault app/lib/a/b.rb
//! ```
//!
//! The first line is the title. `file` begins a file and `|` is a line of it; `many 3` stands for three files, each
//! with a module. `ask` asks for the fault, the constant and the tasks of a file, and `find` what a name is found as
//! in scopes, innermost first. The `=` lines are all that must be told, which is the refusal alone where there is no
//! program. Any other line is a remark.
#![tactic(auto)]

mod asking;
mod files;
mod told;

use std::alloc::{AllocError, Global};
use std::{io, str};

/// What must be told of a case.
fn wanted(alloc: Global, paragraph: &str) -> Result<Vec<u8>, AllocError> {
    let mut wanted = Vec::new(alloc);
    for line in paragraph.lines() {
        if let Some(text) = line.strip_prefix("= ") {
            told::put_line(&mut wanted, text.as_bytes())?;
        }
    }
    Ok(wanted)
}

/// Judges the case of a paragraph, and says so where it doesn't hold.
fn judge<R: Print>(rt: &R, alloc: Global, paragraph: &str) -> io::Result<bool> {
    let snapshot = files::snapshot_of(alloc, paragraph)?;
    let told = asking::told_of(alloc, snapshot, paragraph)?;
    if told.as_slice() == wanted(alloc, paragraph)?.as_slice() {
        return Ok(true);
    }
    let told = str::from_utf8(told.as_slice()).unwrap_or("no text");
    println!(rt; "of this case\n{paragraph}\nis told\n{told}")?;
    Ok(false)
}

fn run<R: Input + Print + AllocGlobal>(rt: &R) -> io::Result<()> {
    let alloc = rt.alloc();
    let text = io::read_to_string(alloc, rt.reader())?;
    let mut held = 0u32;
    let mut failed = 0u32;
    for paragraph in text.as_str().split("\n\n") {
        if judge(rt, alloc, paragraph)? {
            held = held.saturating_add(1);
        } else {
            failed = failed.saturating_add(1);
        }
    }
    println!(rt; "{held} cases hold, {failed} don't")
}

fn main(rt: HostRuntime) -> io::Result<()> {
    run(&rt)
}
