ghost use Rattle.ruby_builtin_texts.specs.Parts as spec;
ghost use Rattle.std.specs.Char.{to_ascii_lowercase, to_ascii_uppercase};
ghost use Rattle.std.specs.Prelude.{◌≡◌, ◌∷◌, map, IfOk};

use ruby_types::Text;
use std::alloc::{AllocError, Global};

/// The bytes with each small ASCII letter raised.
pub fn upcased(alloc: Global, text: &[u8]) -> Result<Text, AllocError>
    ensures { IfOk result (λ made. made ≡ map to_ascii_uppercase text.now) }
{
    let letters = text
        .iter()
        .map(|byte| byte.to_ascii_uppercase())
        .collect(alloc)?;
    Text::from_vec(alloc, letters)
}

/// The bytes with each capital ASCII letter lowered.
pub fn downcased(alloc: Global, text: &[u8]) -> Result<Text, AllocError>
    ensures { IfOk result (λ made. made ≡ map to_ascii_lowercase text.now) }
{
    let letters = text
        .iter()
        .map(|byte| byte.to_ascii_lowercase())
        .collect(alloc)?;
    Text::from_vec(alloc, letters)
}

/// The text with its first letter raised and all others fallen.
pub fn capitalized(alloc: Global, text: &[u8]) -> Result<Text, AllocError>
    ensures { IfOk result (λ made. made ≡ spec.capitalized text.now) }
{
    match text {
        [] => Ok(Text::new(alloc)),
        [first, others @ ..] => {
            let letters = downcased_behind(alloc, first.to_ascii_uppercase(), others)?;
            Text::from_vec(alloc, letters)
        }
    }
}

fn downcased_behind(alloc: Global, first: u8, others: &[u8]) -> Result<Vec<u8>, AllocError>
    ensures { IfOk result (λ letters. letters.items ≡ first ∷ map to_ascii_lowercase others.now) }
{
    let mut letters = Vec::with_capacity(alloc, others.len().saturating_add(1))?;
    letters.push(first)?;
    for byte in others {
        letters.push(byte.to_ascii_lowercase())?;
    }
    Ok(letters)
}
