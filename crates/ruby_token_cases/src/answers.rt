//! What is wanted of a case and what `ruby_token` gives.

use crate::written::{Written, bytes_of};
use ruby_token::{LexFault, Lexed, Token, lex, tokens};
use std::alloc::{AllocError, Global};

/// How a token is shown.
#[derive(Clone, Copy)]
enum Shown {
    /// Its kind, and its text between backquotes.
    Text,
    /// Its kind and its place.
    Place,
}

/// Whether a word begins the second line of a case.
pub fn is_sign(word: &str) -> bool {
    matches!(word, "=" | "!")
}

/// The token's bytes; none, where it has no place in them.
fn text_of<'a>(bytes: &'a [u8], token: &Token) -> &'a [u8] {
    let (from, to) = (token.from as usize, token.to as usize);
    if from <= to && to <= bytes.len() {
        &bytes[from..to]
    } else {
        b""
    }
}

/// A space, where something stands before.
fn put_space(cut: &mut Vec<u8>) -> Result<(), AllocError> {
    if !cut.is_empty() {
        cut.extend_from_slice(b" ")?;
    }
    Ok(())
}

fn put_token(
    alloc: Global,
    cut: &mut Vec<u8>,
    shown: Shown,
    bytes: &[u8],
    token: &Token,
) -> Result<(), AllocError> {
    match shown {
        Shown::Text => {
            put_space(cut)?;
            cut.extend_from_slice(format!(in alloc; "{:?}`", token.kind)?.as_bytes())?;
            cut.extend_from_slice(text_of(bytes, token))?;
            cut.extend_from_slice(b"`")
        }
        Shown::Place => {
            put_space(cut)?;
            let place = format!(in alloc; "{:?} {}..{}", token.kind, token.from, token.to)?;
            cut.extend_from_slice(place.as_bytes())
        }
    }
}

/// The tokens, as they are shown.
fn cut_of(
    alloc: Global,
    shown: Shown,
    bytes: &[u8],
    tokens: &[Token],
) -> Result<Vec<u8>, AllocError> {
    let mut cut = Vec::new(alloc);
    for token in tokens {
        put_token(alloc, &mut cut, shown, bytes, token)?;
    }
    Ok(cut)
}

fn put_fault(alloc: Global, cut: &mut Vec<u8>, fault: &LexFault) -> Result<(), AllocError> {
    put_space(cut)?;
    let text = format!(in alloc; "{:?} at {}", fault.kind, fault.at)?;
    cut.extend_from_slice(text.as_bytes())
}

/// All tokens, or the first fault.
fn all_or_fault(alloc: Global, shown: Shown, bytes: &[u8]) -> Result<Vec<u8>, AllocError> {
    if bytes.len() >= 1_000_000 {
        return Ok(Vec::new(alloc));
    }
    match tokens(alloc, bytes) {
        Ok(found) => cut_of(alloc, shown, bytes, found.as_slice()),
        Err(fault) => {
            let mut cut = Vec::new(alloc);
            put_fault(alloc, &mut cut, &fault)?;
            Ok(cut)
        }
    }
}

/// The tokens before the first fault, and that fault.
fn with_fault(alloc: Global, bytes: &[u8]) -> Result<Vec<u8>, AllocError> {
    if bytes.len() >= 1_000_000 {
        return Ok(Vec::new(alloc));
    }
    let Lexed { tokens, fault } = lex(alloc, bytes)?;
    let mut cut = cut_of(alloc, Shown::Text, bytes, tokens.as_slice())?;
    if let Some(fault) = fault {
        put_fault(alloc, &mut cut, &fault)?;
    }
    Ok(cut)
}

/// What is found of a case of this kind; nothing, where there is no such kind.
pub fn found(alloc: Global, kind: &str, bytes: &[u8]) -> Result<Option<Vec<u8>>, AllocError> {
    match kind {
        "tokens" => Ok(Some(all_or_fault(alloc, Shown::Text, bytes)?)),
        "lex" => Ok(Some(with_fault(alloc, bytes)?)),
        "spans" => Ok(Some(all_or_fault(alloc, Shown::Place, bytes)?)),
        _ => Ok(None),
    }
}

/// What is wanted of a case.
pub fn wanted(
    alloc: Global,
    text: &Written,
    sign: &str,
    wanted: &str,
) -> Result<Vec<u8>, AllocError> {
    let mut bytes = bytes_of(alloc, wanted)?.bytes;
    if sign == "!" {
        let place = match text.mark {
            Some(mark) => format!(in alloc; " at {mark}")?,
            None => String::from_str(alloc, " at a mark that lacks")?,
        };
        bytes.extend_from_slice(place.as_bytes())?;
    }
    Ok(bytes)
}
