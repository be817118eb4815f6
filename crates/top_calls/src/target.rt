//! The targets of requests.
ghost use Rattle.std.specs.Prelude.{◌≡◌, ◌∷◌, ◌++◌, IfSome, IfNone, IsSomeAnd, IsTrue, ◌↔◌, ℕ, List};
ghost use Rattle.load_rules.specs.Names.{IsLetters};
ghost use Rattle.top_calls.specs.Target.{IsFirstTarget, IsSegment};

use load_rules::is_letters;

/// A target's controller and action.
#[derive(Clone, Copy)]
pub struct Target<'a> {
    pub controller: &'a [u8],
    pub action: &'a [u8],
}

/// The bytes before the first `/` and those behind it.
fn split_at_slash(bytes: &[u8]) -> Option<(&[u8], &[u8])>
    ensures found { IfSome result (λ p. (bytes.now ≡ p.0.now ++ 47 ∷ p.1.now) × IsSegment p.0.now) }
    ensures none { IfNone result (IsSegment bytes.now) }
{
    'bytes: for (place, byte) in bytes.iter().enumerate() {
        if *byte == b'/' {
            return Some((&bytes[..place], &bytes[place + 1..]));
        }
    }
    None
}

/// The bytes behind the `/` that they begin with.
fn behind_slash(target: &[u8]) -> Option<&[u8]>
    ensures found { IfSome result (λ rest. target.now ≡ 47 ∷ rest.now) }
    ensures none { IfNone result ((rest : List ℕ) → target.now ≡ 47 ∷ rest → ⊥) }
{
    match target.split_first() {
        Some((first, rest)) => if *first == b'/' { Some(rest) } else { None },
        None => None,
    }
}

fn are_letters(controller: &[u8], action: &[u8]) -> bool
    ensures { IsTrue result ↔ (IsLetters controller.now × IsLetters action.now) }
{
    is_letters(controller) && is_letters(action)
}

/// Reads a target `/NAME/ACTION`, both of letters `a` to `z`. None for every other target.
pub fn first_target(target: &[u8]) -> Option<Target<'_>>
    ensures found { IfSome result (λ t. IsFirstTarget target.now t.controller.now t.action.now) }
    ensures only { (controller action : List ℕ) → IsFirstTarget target.now controller action →
        IsSomeAnd result (λ t. (t.controller.now ≡ controller) × (t.action.now ≡ action)) }
{
    let rest = behind_slash(target)?;
    let (controller, action) = split_at_slash(rest)?;
    if are_letters(controller, action) {
        Some(Target { controller, action })
    } else {
        None
    }
}
