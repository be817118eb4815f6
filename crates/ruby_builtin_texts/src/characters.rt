ghost use Rattle.ruby_builtin_base.specs.Characters as spec;
ghost use Rattle.ruby_builtin_texts.specs.Parts.{counted};
ghost use Rattle.ruby_types.specs.declared.value.Value.TheVariants.{Str};
ghost use Rattle.std.specs.List.{concat, prefix_len};
ghost use Rattle.std.specs.Prelude.{◌≡◌, ◌<◌, ◌≤◌, [], ◌∷◌, ◌++◌, length, map, reverse, slice_get, option_copied};
ghost use Rattle.std.specs.Prelude.{IfOk, MatchOption};

use ruby_builtin_base::is_inner;
use ruby_types::{Items, Text, Value};
use std::alloc::{AllocError, Global};

/// How many bytes go on with a character before one begins.
fn inner_len(bytes: &[u8]) -> usize
    ensures value { result ≡ prefix_len spec.is_inner bytes.now }
    ensures within { result ≤ length bytes.now }
{
    for (place, byte) in bytes.iter().enumerate() {
        if !is_inner(*byte) {
            return place;
        }
    }
    bytes.len()
}

/// The first character of a text and what stands behind it.
fn split_first(text: &[u8]) -> Option<(&[u8], &[u8])>
    ensures { MatchOption result (text.now ≡ []) (λ p.
        (spec.characters text.now ≡ p.0.now ∷ spec.characters p.1.now) × (length p.1.now < length text.now)) }
{
    let (_, others) = text.split_first()?;
    let end = inner_len(others) + 1;
    Some(text.split_at(end))
}

/// The last character of a text and what stands before it.
fn split_last(text: &[u8]) -> Option<(&[u8], &[u8])>
    ensures { MatchOption result (text.now ≡ []) (λ p.
        (spec.characters text.now ≡ spec.characters p.0.now ++ p.1.now ∷ []) × (length p.0.now < length text.now)) }
{
    let mut start = text.len().checked_sub(1)?;
    'inner: while start > 0 && is_inner(text[start]) {
        start -= 1;
    }
    Some(text.split_at(start))
}

/// The characters of a text, each as a text of its own.
pub fn characters(alloc: Global, text: &[u8]) -> Result<Items, AllocError>
    ensures { IfOk result (λ items. items ≡ map Str (spec.characters text.now)) }
{
    let mut items = Vec::new(alloc);
    let mut rest = text;
    'characters: while let Some((first, others)) = split_first(rest) {
        items.push(Value::Str(Text::from_bytes(alloc, first)?))?;
        rest = others;
    }
    Items::from_vec(alloc, items)
}

/// The characters of a text from the last to the first.
pub fn reversed(alloc: Global, text: &[u8]) -> Result<Text, AllocError>
    ensures { IfOk result (λ made. made ≡ concat (reverse (spec.characters text.now))) }
{
    let mut bytes = Vec::with_capacity(alloc, text.len())?;
    let mut rest = text;
    'characters: while let Some((others, last)) = split_last(rest) {
        bytes.extend_from_slice(last)?;
        rest = others;
    }
    Text::from_vec(alloc, bytes)
}

fn from_start(text: &[u8], place: u64) -> Option<&[u8]>
    ensures { option_copied result ≡ slice_get (spec.characters text.now) place }
{
    let mut rest = text;
    let mut left = place;
    'characters: while let Some((first, others)) = split_first(rest) {
        if left == 0 {
            return Some(first);
        }
        left -= 1;
        rest = others;
    }
    None
}

fn from_end(text: &[u8], place: u64) -> Option<&[u8]>
    ensures { option_copied result ≡ slice_get (reverse (spec.characters text.now)) place }
{
    let mut rest = text;
    let mut left = place;
    'characters: while let Some((others, last)) = split_last(rest) {
        if left == 0 {
            return Some(last);
        }
        left -= 1;
        rest = others;
    }
    None
}

/// The character at a place, of which 0 is the first and -1 the last.
pub fn character_at(text: &[u8], place: i64) -> Option<&[u8]>
    ensures { option_copied result ≡ counted (spec.characters text.now) place }
{
    if place < 0 {
        from_end(text, place.unsigned_abs() - 1)
    } else {
        from_start(text, place.unsigned_abs())
    }
}
