ghost use Rattle.std.specs.Prelude.{◌≡◌, ◌≤◌, length};
ghost use Rattle.ruby_builtin_base.specs.Characters as spec;

/// The number of characters of a text: each begins at the first byte or at a byte that isn't from 128 to 191.
pub fn character_count(text: &[u8]) -> usize
    ensures { result ≡ length (spec.characters text.now) }
{
    match text.split_first() {
        None => 0,
        Some((_, rest)) => beginnings(rest) + 1,
    }
}

fn beginnings(bytes: &[u8]) -> usize
    ensures value { result ≡ spec.beginnings bytes.now }
    ensures few { result ≤ length bytes.now }
{
    let mut count = 0;
    for byte in bytes {
        if !is_inner(*byte) {
            count += 1;
        }
    }
    count
}

/// Whether a byte goes on with a character.
pub fn is_inner(byte: u8) -> bool
    ensures { result ≡ spec.is_inner byte }
{
    128 <= byte && byte <= 191
}
