//! Tries `ruby_token` on the cases of its standard input, which were worked out by hand from the rules of the profile,
//! and says how many hold.
//!
//! A case is a paragraph of two lines: a kind and a text; and what is wanted of it, `=` where there is no fault, `!`
//! where the first one stands at the text's mark.
//!
//! | Kind | Wanted |
//! |---|---|
//! | `tokens` | `=` each token's kind, and its text between backquotes; `!` the fault's kind |
//! | `lex` | the same, and before a fault's kind the tokens before it |
//! | `spans` | `=` each token's kind and place |
//!
//! `written` says how bytes and the mark are spelled.
#![tactic(auto)]

mod answers;
mod written;

use std::alloc::{AllocError, Global};
use std::io;

/// Whether what is found of a case is what its second line wants, or why it can't be said.
fn judge(
    alloc: Global,
    head: &str,
    sign: &str,
    wanted: &str,
) -> Result<Option<String>, AllocError> {
    let Some((kind, text)) = head.split_once(':') else {
        return Ok(Some(String::from_str(alloc, "no kind stands before the text")?));
    };
    let text = written::bytes_of(alloc, text.strip_prefix(" ").unwrap_or(text))?;
    let Some(found) = answers::found(alloc, kind, text.bytes.as_slice())? else {
        return Ok(Some(String::from_str(alloc, "there is no such kind")?));
    };
    let wanted = answers::wanted(alloc, &text, sign, wanted)?;
    if found.as_slice() == wanted.as_slice() {
        return Ok(None);
    }
    let found = written::escaped(alloc, found.as_slice())?;
    Ok(Some(format!(in alloc; "found {found}")?))
}

fn main(rt: HostRuntime) -> io::Result<()> {
    let alloc = rt.alloc();
    let mut head: Option<String> = None;
    let mut held = 0u32;
    let mut failed = 0u32;
    for line in rt.lines(alloc) {
        let line = line?;
        let (sign, wanted) = line.split_once(' ').unwrap_or((line.as_str(), ""));
        if !answers::is_sign(sign) {
            head = Some(line);
            continue;
        }
        let told = head.as_ref().map_or("", |it| it.as_str());
        match judge(alloc, told, sign, wanted)? {
            None => held = held.saturating_add(1),
            Some(why) => {
                failed = failed.saturating_add(1);
                println!(rt; "{told}\n{line}\n{why}\n")?;
            }
        }
        head = None;
    }
    println!(rt; "{held} cases hold, {failed} don't")?;
    Ok(())
}
