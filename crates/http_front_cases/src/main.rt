//! Tries `http_front` on the cases of its standard input, which were worked out by hand from the rules of its wire, and
//! says how many hold.
//!
//! A case is two lines: a kind and a text; and `= ` with what is wanted of it.
//!
//! | Kind | Text | Wanted |
//! |---|---|---|
//! | `head` | the bytes of an input | `whole` with its length and what it says, or `more`, `bad`, `long`, `many` |
//! | `request` | a target | its route and its parameters, or `too long` |
//! | `notice` | a cause, with its number | its status and text |
//! | `response` | a status, a generation or `-`, a body | the bytes |
//! | `closing response`, `head response` | the same | the bytes where the connection closes, and of a HEAD |
//!
//! `written` says how bytes are spelled.
#![tactic(auto)]

mod answers;
mod replies;
mod written;

use std::alloc::{AllocError, Global};
use std::io;

/// Whether what is found of a case is what its second line wants, or why it can't be said.
fn judge(alloc: Global, head: &str, wanted: &str) -> Result<Option<String>, AllocError> {
    let Some((kind, text)) = head.split_once(':') else {
        return Ok(Some(String::from_str(alloc, "no kind stands before the text")?));
    };
    let text = text.strip_prefix(" ").unwrap_or(text);
    let Some(found) = answers::found(alloc, kind, text)? else {
        return Ok(Some(String::from_str(alloc, "there is no such case")?));
    };
    let wanted = written::bytes_of(alloc, wanted)?;
    if found.as_slice() == wanted.as_slice() {
        return Ok(None);
    }
    let found = written::escaped(alloc, found.as_slice())?;
    Ok(Some(format!(in alloc; "found {found}")?))
}

fn main(rt: HostRuntime) -> io::Result<()> {
    let alloc = rt.alloc();
    let mut head: Option<String> = None;
    let mut held = 0u32;
    let mut failed = 0u32;
    for line in rt.lines(alloc) {
        let line = line?;
        let Some(wanted) = line.as_str().strip_prefix("=") else {
            head = Some(line);
            continue;
        };
        let told = head.as_ref().map_or("", |it| it.as_str());
        match judge(alloc, told, wanted.strip_prefix(" ").unwrap_or(wanted))? {
            None => held = held.saturating_add(1),
            Some(why) => {
                failed = failed.saturating_add(1);
                println!(rt; "{told}\n{line}\n{why}\n")?;
            }
        }
        head = None;
    }
    println!(rt; "{held} cases hold, {failed} don't")?;
    Ok(())
}
