//! What the bytes of a text's piece stand for.

ghost use Rattle.std.specs.Prelude.{◌≡◌, ◌∷◌, ◌<◌, [], length, IfOk, MatchOption, IfSome};
ghost use Rattle.ruby_grammar.specs.Values.{escaped, double_text, single_text, text_bytes};

use lists::Listed;
use ruby_types::{Part, Text};
use std::alloc::{AllocError, Global};

/// The byte that a backslash and this byte stand for in double quotes.
fn escaped(byte: u8) -> u8
    ensures { result ≡ escaped byte }
{
    match byte {
        b'n' => b'\n',
        b't' => b'\t',
        b'r' => b'\r',
        b'e' => 27,
        _ => byte,
    }
}

/// The next byte of a piece in double quotes, and the piece behind it.
fn next_double(piece: &[u8]) -> Option<(u8, &[u8])>
    ensures first { MatchOption result (piece.now ≡ []) (λ p. double_text piece.now ≡ p.0 ∷ double_text p.1.now) }
    ensures shorter { IfSome result (λ p. length p.1.now < length piece.now) }
{
    match piece {
        [] => None,
        [b'\\', byte, behind @ ..] => Some((escaped(*byte), behind)),
        [byte, behind @ ..] => Some((*byte, behind)),
    }
}

/// The next byte of a piece in single quotes, where a backslash before another byte than `'` and `\` stands for itself.
fn next_single(piece: &[u8]) -> Option<(u8, &[u8])>
    ensures first { MatchOption result (piece.now ≡ []) (λ p. single_text piece.now ≡ p.0 ∷ single_text p.1.now) }
    ensures shorter { IfSome result (λ p. length p.1.now < length piece.now) }
{
    match piece {
        [] => None,
        [b'\\', byte, behind @ ..] if *byte == b'\'' || *byte == b'\\' => Some((*byte, behind)),
        [byte, behind @ ..] => Some((*byte, behind)),
    }
}

/// The bytes of a piece in double quotes.
fn double_text(alloc: Global, piece: &[u8]) -> Result<Listed<u8>, AllocError>
    ensures { IfOk result (λ bytes. bytes ≡ double_text piece.now) }
{
    let mut bytes = Listed::new(alloc);
    let mut rest = piece;
    'bytes: while let Some((byte, behind)) = next_double(rest) {
        bytes.push(byte)?;
        rest = behind;
    }
    Ok(bytes)
}

/// The bytes of a piece in single quotes.
fn single_text(alloc: Global, piece: &[u8]) -> Result<Listed<u8>, AllocError>
    ensures { IfOk result (λ bytes. bytes ≡ single_text piece.now) }
{
    let mut bytes = Listed::new(alloc);
    let mut rest = piece;
    'bytes: while let Some((byte, behind)) = next_single(rest) {
        bytes.push(byte)?;
        rest = behind;
    }
    Ok(bytes)
}

fn text_bytes(alloc: Global, is_double: bool, piece: &[u8]) -> Result<Listed<u8>, AllocError>
    ensures { IfOk result (λ bytes. bytes ≡ text_bytes is_double piece.now) }
{
    if is_double {
        double_text(alloc, piece)
    } else {
        single_text(alloc, piece)
    }
}

/// What a piece of a text stands for.
pub fn plain_part(alloc: Global, is_double: bool, piece: &[u8]) -> Result<Part, AllocError>
    ensures { IfOk result (λ part. part ≡ Part.Plain (text_bytes is_double piece.now)) }
{
    let bytes = text_bytes(alloc, is_double, piece)?;
    Ok(Part::Plain(Text::from_vec(alloc, bytes.into_vec())?))
}
