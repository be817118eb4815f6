//! What a call answers, as the second line of a case spells it.

use crate::reading::ReadCall;
use ruby_builtin::{Called, call, error_text, inspect};
use std::alloc::{AllocError, Global};

const DIGITS: [u8; 16] = *b"0123456789ABCDEF";

/// Writes bytes behind what is there, those that aren't printed as `\x0A`.
fn push_plain(out: &mut Vec<u8>, bytes: &[u8]) -> Result<(), AllocError> {
    for byte in bytes {
        if 32 <= *byte && *byte < 127 {
            out.push(*byte)?;
        } else {
            out.extend_from_slice(b"\\x")?;
            out.push(DIGITS[(*byte / 16) as usize])?;
            out.push(DIGITS[(*byte % 16) as usize])?;
        }
    }
    Ok(())
}

/// What the call that a case asks for answers, as the case would write it.
pub fn said(alloc: Global, asked: &ReadCall) -> Result<Vec<u8>, AllocError> {
    let mut out = Vec::new(alloc);
    match call(
        alloc,
        &asked.on,
        asked.name.as_slice(),
        &asked.args,
        asked.left,
    ) {
        Called::Value(value, cost) => {
            out.extend_from_slice(b"= ")?;
            push_plain(&mut out, inspect(alloc, &value)?.as_bytes())?;
            let cost = format!(in alloc; " in {cost}")?;
            out.extend_from_slice(cost.as_bytes())?;
        }
        Called::Raised(error) => {
            out.extend_from_slice(b"! ")?;
            push_plain(&mut out, error_text(alloc, &error)?.as_bytes())?;
        }
        Called::NoMethod => out.push(b'-')?,
        Called::Memory => return Err(AllocError),
    }
    Ok(out)
}
