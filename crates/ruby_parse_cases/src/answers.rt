//! What is wanted of a case and what `ruby_parse` gives.

use crate::frames::Frame;
use crate::shown::{Shown, show_file};
use crate::written::bytes_of;
use ruby_parse::{SyntaxFault, parse, print};
use std::alloc::{AllocError, Global};

/// Whether a word begins the second line of a case.
pub fn is_sign(word: &str) -> bool {
    matches!(word, "=" | "!" | ">")
}

fn fault_text(alloc: Global, fault: &SyntaxFault) -> Result<String, AllocError> {
    format!(in alloc; "{:?} at {}", fault.kind, fault.at)
}

fn copied(alloc: Global, text: &str) -> Result<Vec<u8>, AllocError> {
    let mut bytes = Vec::new(alloc);
    bytes.extend_from_slice(text.as_bytes())?;
    Ok(bytes)
}

/// What stands for a file's tree, or for its first fault.
fn tree_of(alloc: Global, bytes: &[u8]) -> Result<Vec<u8>, AllocError> {
    if bytes.len() >= 10_000_000 {
        return copied(alloc, "a text too long for a case");
    }
    match parse(alloc, bytes) {
        Ok(tree) => {
            let mut shown = Shown::new(alloc);
            show_file(&mut shown, &tree)?;
            Ok(shown.into_bytes())
        }
        Err(fault) => copied(alloc, fault_text(alloc, &fault)?.as_str()),
    }
}

/// The printed text of a file's tree, where it is read as the same tree.
fn printed(alloc: Global, bytes: &[u8]) -> Result<Vec<u8>, AllocError> {
    if bytes.len() >= 10_000_000 {
        return copied(alloc, "a text too long for a case");
    }
    let Ok(tree) = parse(alloc, bytes) else {
        return copied(alloc, "no tree");
    };
    let text = print(alloc, &tree)?;
    let again = tree_of(alloc, text.as_bytes())?;
    if again.as_slice() != tree_of(alloc, bytes)?.as_slice() {
        return copied(alloc, "a printed text with another tree");
    }
    let mut found = Vec::new(alloc);
    found.extend_from_slice(text.as_bytes())?;
    Ok(found)
}

/// These bytes between what stands around them.
fn framed(alloc: Global, before: &str, bytes: &[u8], behind: &str) -> Result<Vec<u8>, AllocError> {
    let mut whole = Vec::new(alloc);
    whole.extend_from_slice(before.as_bytes())?;
    whole.extend_from_slice(bytes)?;
    whole.extend_from_slice(behind.as_bytes())?;
    Ok(whole)
}

/// What is found of a case.
pub fn found(alloc: Global, frame: &Frame, text: &str, sign: &str) -> Result<Vec<u8>, AllocError> {
    let text = bytes_of(alloc, text)?;
    let file = framed(alloc, frame.before, text.bytes.as_slice(), frame.behind)?;
    if sign == ">" {
        printed(alloc, file.as_slice())
    } else {
        tree_of(alloc, file.as_slice())
    }
}

/// What is wanted of a case.
pub fn wanted(
    alloc: Global,
    frame: &Frame,
    text: &str,
    sign: &str,
    wanted: &str,
) -> Result<Vec<u8>, AllocError> {
    if sign == "!" {
        let Some(mark) = bytes_of(alloc, text)?.mark else {
            return copied(alloc, "a fault at a mark that lacks");
        };
        let at = frame.before.len().saturating_add(mark);
        return copied(alloc, format!(in alloc; "{wanted} at {at}")?.as_str());
    }
    let wanted = bytes_of(alloc, wanted)?;
    framed(
        alloc,
        frame.wanted_before,
        wanted.bytes.as_slice(),
        frame.wanted_behind,
    )
}
