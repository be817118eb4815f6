//! The target of a request.
ghost use Rattle.std.specs.Prelude.{◌≡◌};
ghost use Rattle.std.specs.List.{list_all};
ghost use Rattle.word_forms.specs.Targets.{is_visible, is_target};

fn are_visible(bytes: &[u8]) -> bool
    ensures { result ≡ list_all is_visible bytes.now }
{
    for byte in bytes {
        if *byte < b'!' || *byte > b'~' {
            return false;
        }
    }
    true
}

/// Whether a word is the target of a request: it begins with `/` and has visible ASCII bytes alone.
pub fn is_target(word: &[u8]) -> bool
    ensures { result ≡ is_target word.now }
{
    match word {
        [] => false,
        [first, rest @ ..] => *first == b'/' && are_visible(rest),
    }
}
