//! Tries the built-in methods on the cases of its standard input, which were worked out by hand, and says how many
//! hold.
//!
//! A case is a paragraph of two lines:
//!
//! ```text
//! -7 ./ 2
//! = -4 in 3
//! ```
//!
//! The first has a receiver, a method's name behind a point, and the arguments, spelled as `reading` says; `@2` behind
//! them says that two turns are left. The second has what the call must answer: `=` a value as `inspect` shows it with
//! the call's cost in turns, `!` an error as it is reported, `-` that there is no such method. Bytes that aren't
//! printed are spelled `\x0A`. A line that begins with `--` is a remark.
#![tactic(auto)]

mod answering;
mod reading;
#[cfg(test)]
mod speed;

use std::alloc::{AllocError, Global};
use std::io;

/// Why the answer to a call isn't the wanted one, where it isn't.
fn judge(alloc: Global, head: &str, wanted: &str) -> Result<Option<String>, AllocError> {
    let Some(call) = reading::call_of(alloc, head.as_bytes())? else {
        return Ok(Some(String::from_str(alloc, "this is no call")?));
    };
    let said = answering::said(alloc, &call)?;
    if said.as_slice() == wanted.as_bytes() {
        return Ok(None);
    }
    let said = std::str::from_utf8(said.as_slice()).unwrap_or("no text");
    Ok(Some(String::from_str(alloc, said)?))
}

fn main(rt: HostRuntime) -> io::Result<()> {
    let alloc = rt.alloc();
    let mut head: Option<String> = None;
    let mut held = 0u32;
    let mut failed = 0u32;
    for line in rt.lines(alloc) {
        let line = line?;
        match line.as_bytes() {
            [] | [b'-', b'-', ..] => {}
            [b'=', b' ', ..] | [b'!', b' ', ..] | [b'-'] => {
                let told = head.as_ref().map_or("", |it| it.as_str());
                match judge(alloc, told, line.as_str())? {
                    None => held = held.saturating_add(1),
                    Some(said) => {
                        failed = failed.saturating_add(1);
                        println!(rt; "{told}\n{line}\nis answered by\n{said}\n")?;
                    }
                }
                head = None;
            }
            _ => head = Some(line),
        }
    }
    println!(rt; "{held} cases hold, {failed} don't")?;
    Ok(())
}
