ghost use Rattle.std.specs.Prelude.{◌≡◌, ◌≢◌, ◌+◌, ◌∷◌, ◌++◌, ◌==◌, [], length, take, drop, All, IfNone, IfSome};
ghost use Rattle.std.specs.Prelude.{MatchOption};
ghost use Rattle.std.specs.List.{after_first, position};
ghost use Rattle.app_config.specs.Text.{split, words, without_return, behind_spaces, behind_word};

/// The place of the first `byte`.
fn place_of(text: &[u8], byte: u8) -> Option<usize>
    ensures position { result ≡ position (λ b. b == byte) text.now }
    ensures none { IfNone result (All (λ b. b ≢ byte) text.now) }
    ensures front { IfSome result (λ place. All (λ b. b ≢ byte) (take place text.now)) }
    ensures found { IfSome result (λ place. text.now ≡ take place text.now ++ byte ∷ drop (place + 1) text.now) }
{
    text.iter().position(|one| *one == byte)
}

/// What stands before the first `byte` of a text, and what stands behind it, where there is one.
pub fn cut_at(text: &[u8], byte: u8) -> (&[u8], Option<&[u8]>)
    ensures front { All (λ b. b ≢ byte) result.0.now }
    ensures whole { MatchOption result.1 (text.now ≡ result.0.now)
        (λ rest. text.now ≡ result.0.now ++ byte ∷ rest.now) }
    ensures parts { MatchOption result.1 (split byte text.now ≡ result.0.now ∷ [])
        (λ rest. split byte text.now ≡ result.0.now ∷ split byte rest.now) }
    ensures behind { MatchOption result.1 (after_first (λ b. b == byte) text.now ≡ [])
        (λ rest. rest.now ≡ after_first (λ b. b == byte) text.now) }
    ensures length { MatchOption result.1 (length result.0.now ≡ length text.now)
        (λ rest. length result.0.now + length rest.now + 1 ≡ length text.now) }
{
    match place_of(text, byte) {
        None => (text, None),
        Some(place) => (&text[..place], Some(&text[place + 1..])),
    }
}

/// A line without the CR that may end it.
pub(crate) fn trimmed_line(line: &[u8]) -> &[u8]
    ensures { result.now ≡ without_return line.now }
{
    match line {
        [front @ .., b'\r'] => front,
        _ => line,
    }
}

/// A text from its first byte on that isn't a space.
pub(crate) fn skip_spaces(text: &[u8]) -> &[u8]
    ensures { result.now ≡ behind_spaces text.now }
{
    let mut rest = text;
    'spaces: while let [b' ', next @ ..] = rest {
        rest = next;
    }
    rest
}

/// The first word of a text, and what stands behind it and the space that ends it.
pub(crate) fn next_word(text: &[u8]) -> Option<(&[u8], &[u8])>
    ensures none { IfNone result (words text.now ≡ []) }
    ensures word { IfSome result (λ found. words text.now ≡ found.0.now ∷ words found.1.now) }
    ensures behind { IfSome result (λ found. found.1.now ≡ behind_word text.now) }
{
    let text = skip_spaces(text);
    if text.is_empty() {
        return None;
    }
    let (word, behind) = cut_at(text, b' ');
    match behind {
        Some(rest) => Some((word, rest)),
        None => Some((word, &[])),
    }
}
