ghost use Rattle.std.specs.Prelude.{◌≡◌, ◌++◌, ◌-◌, ◌^◌, length, min, IfOk, OnOk};
ghost use Rattle.std.specs.List.{flat_map};
ghost use Rattle.plain_text.specs.Quoting as spec;

use ruby_types::Text;
use std::alloc::{AllocError, Global};

/// What `inspect` escapes: each byte with the letter that stands for it behind a `\`.
pub const INSPECT_ESCAPES: [(u8, u8); 5] = [
    (b'"', b'"'),
    (b'\\', b'\\'),
    (b'\n', b'n'),
    (b'\t', b't'),
    (b'\r', b'r'),
];

/// A text as `inspect` shows it: in double quotes, with `"` and `\` behind a `\`, and LF, TAB and CR as `\n`, `\t` and
/// `\r`. Every other byte stays as it is.
pub fn quoted(alloc: Global, bytes: &[u8]) -> Result<Text, AllocError>
    ensures { IfOk result (λ text. text ≡ spec.quoted bytes.now) }
{
    let mut shown = Vec::new(alloc);
    push_quoted(&mut shown, bytes)?;
    Text::from_vec(alloc, shown)
}

/// Writes a text behind what is there, as [`quoted`] shows it.
pub fn push_quoted(shown: &mut Vec<u8>, bytes: &[u8]) -> Result<(), AllocError>
    ensures { OnOk result (shown.new.items ≡ shown.old.items ++ spec.quoted bytes.now) }
{
    shown.push(b'"')?;
    push_escaped(shown, &INSPECT_ESCAPES, bytes)?;
    shown.push(b'"')?;
    Ok(())
}

/// Writes bytes behind what is there, those that the table of escapes has as a `\` and the table's letter.
pub fn push_escaped(
    shown: &mut Vec<u8>,
    escapes: &[(u8, u8)],
    bytes: &[u8],
) -> Result<(), AllocError>
    ensures { OnOk result (shown.new.items ≡ shown.old.items ++ flat_map (spec.escaped_by escapes.now) bytes.now) }
{
    for byte in bytes {
        push_byte(shown, escapes, *byte)?;
    }
    Ok(())
}

fn push_byte(shown: &mut Vec<u8>, escapes: &[(u8, u8)], byte: u8) -> Result<(), AllocError>
    ensures { OnOk result (shown.new.items ≡ shown.old.items ++ spec.escaped_by escapes.now byte) }
{
    for escape in escapes {
        if byte == escape.0 {
            shown.extend_from_slice(&[b'\\', escape.1])?;
            return Ok(());
        }
    }
    shown.push(byte)?;
    Ok(())
}

/// The number of bytes that [`quoted`] writes, or 2^64 - 1 where they are more.
pub fn quoted_len(bytes: &[u8]) -> u64
    ensures { result ≡ min (length (spec.quoted bytes.now)) (2 ^ 64 - 1) }
{
    let mut total = 2u64;
    for byte in bytes {
        total = total.saturating_add(escaped_len(*byte));
    }
    total
}

fn escaped_len(byte: u8) -> u64
    ensures { result ≡ length (spec.escaped byte) }
{
    match byte {
        b'"' | b'\\' | b'\n' | b'\t' | b'\r' => 2,
        _ => 1,
    }
}
