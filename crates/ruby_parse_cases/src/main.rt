//! Tries `ruby_parse` on the cases of its standard input, which were worked out by hand from the rules of the
//! profile, and
//! says how many hold.
//!
//! A case is a paragraph of two lines. The first has a kind, which says what stands around, and a text; the second has
//! what is wanted of it: `=` a tree as `shown` writes it, `!` the kind of the first fault, which stands at the text's
//! mark,
//! `>` a printed text. `written` says how bytes, the mark and repetitions are spelled.
#![tactic(auto)]

mod answers;
mod frames;
mod shown;
mod written;

use std::alloc::{AllocError, Global};
use std::io;

/// Whether what is found of a case is what its second line wants, or why it can't be said.
fn judge(
    alloc: Global,
    head: &str,
    sign: &str,
    wanted: &str,
) -> Result<Option<String>, AllocError> {
    let Some((kind, text)) = head.split_once(':') else {
        return Ok(Some(String::from_str(alloc, "no kind stands before the text")?));
    };
    let Some(frame) = frames::frame_of(kind) else {
        return Ok(Some(String::from_str(alloc, "there is no such kind")?));
    };
    let text = text.strip_prefix(" ").unwrap_or(text);
    let found = answers::found(alloc, &frame, text, sign)?;
    let wanted = answers::wanted(alloc, &frame, text, sign, wanted)?;
    if found.as_slice() == wanted.as_slice() {
        return Ok(None);
    }
    let found = written::escaped(alloc, found.as_slice())?;
    Ok(Some(format!(in alloc; "found {found}")?))
}

fn main(rt: HostRuntime) -> io::Result<()> {
    let alloc = rt.alloc();
    let mut head: Option<String> = None;
    let mut held = 0u32;
    let mut failed = 0u32;
    for line in rt.lines(alloc) {
        let line = line?;
        match line.split_once(' ') {
            Some((sign, wanted)) if answers::is_sign(sign) => {
                let told = head.as_ref().map_or("", |it| it.as_str());
                match judge(alloc, told, sign, wanted)? {
                    None => held = held.saturating_add(1),
                    Some(why) => {
                        failed = failed.saturating_add(1);
                        println!(rt; "{told}\n{line}\n{why}\n")?;
                    }
                }
                head = None;
            }
            _ => head = Some(line),
        }
    }
    println!(rt; "{held} cases hold, {failed} don't")?;
    Ok(())
}
