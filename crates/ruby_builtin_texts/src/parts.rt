ghost use Rattle.ruby_builtin_texts.specs.Parts as spec;
ghost use Rattle.std.specs.Cmp.Lexicographic.{slice_cmp};
ghost use Rattle.std.specs.List.{ends_with, repeat, starts_with};
ghost use Rattle.std.specs.Ordering.{nat_cmp};
ghost use Rattle.std.specs.Prelude.{◌≡◌, ◌++◌, IfOk, nat_eq};

use lists::Copying;
use memchr::memmem;
use ruby_types::Text;
use std::alloc::{AllocError, Global};
use std::cmp::Ordering;

/// How two texts compare by their bytes.
pub fn compared(text: &[u8], other: &[u8]) -> Ordering
    ensures { result ≡ slice_cmp nat_cmp text.now other.now }
{
    text.cmp(&other)
}

/// Whether a text begins with another.
pub fn starts_with(text: &[u8], part: &[u8]) -> bool
    ensures { result ≡ starts_with nat_eq text.now part.now }
{
    text.starts_with(part)
}

/// Whether a text ends with another.
pub fn ends_with(text: &[u8], part: &[u8]) -> bool
    ensures { result ≡ ends_with nat_eq text.now part.now }
{
    text.ends_with(part)
}

/// Whether a part stands in a text, found in one pass.
pub fn has_part(text: &[u8], part: &[u8]) -> bool
    ensures { result ≡ spec.has_part text.now part.now }
{
    memmem::find(text, part).is_some()
}

fn is_white(byte: u8) -> bool
    ensures { result ≡ spec.is_white byte }
{
    byte == b' ' || (9 <= byte && byte <= 13)
}

/// The bytes behind the white ones at the front: space, TAB, LF, VT, FF and CR.
pub fn without_leading_white(text: &[u8]) -> &[u8]
    ensures { result.now ≡ spec.without_leading_white text.now }
{
    let mut rest = text;
    'white: loop {
        match rest {
            [byte, others @ ..] if is_white(*byte) => rest = others,
            _ => return rest,
        }
    }
}

fn without_trailing_white(text: &[u8]) -> &[u8]
    ensures { result.now ≡ spec.without_trailing_white text.now }
{
    let mut rest = text;
    'white: loop {
        match rest {
            [others @ .., byte] if is_white(*byte) => rest = others,
            _ => return rest,
        }
    }
}

/// The text without the white bytes at both ends.
pub fn stripped(text: &[u8]) -> &[u8]
    ensures { result.now ≡ spec.stripped text.now }
{
    without_trailing_white(without_leading_white(text))
}

/// The stripped text as a text of its own, or the text itself where it has no white bytes at its ends.
pub fn stripped_text(alloc: Global, text: &Text) -> Result<Text, AllocError>
    ensures { IfOk result (λ made. made ≡ spec.stripped text.now) }
{
    let part = stripped(text.as_bytes());
    if part.len() < text.len() {
        Text::from_bytes(alloc, part)
    } else {
        text.copy()
    }
}

/// One text behind another.
pub fn joined(alloc: Global, text: &[u8], other: &[u8]) -> Result<Text, AllocError>
    ensures { IfOk result (λ made. made ≡ text.now ++ other.now) }
{
    let room = text.len().checked_add(other.len()).ok_or(AllocError)?;
    let mut both = Vec::with_capacity(alloc, room)?;
    both.extend_from_slice(text)?;
    both.extend_from_slice(other)?;
    Text::from_vec(alloc, both)
}

/// A text so many times.
pub fn repeated(alloc: Global, text: &[u8], times: u64) -> Result<Text, AllocError>
    ensures { IfOk result (λ made. made ≡ repeat times text.now) }
{
    let times = usize::try_from(times).map_err(|_| AllocError)?;
    Text::from_vec(alloc, text.repeat(alloc, times)?)
}
