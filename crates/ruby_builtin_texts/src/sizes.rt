ghost use Rattle.ruby_builtin_base.specs.Characters.{characters};
ghost use Rattle.ruby_types.specs.Size as sizes_of;
ghost use Rattle.ruby_types.specs.declared.value.Value.TheVariants.{Array, Str};
ghost use Rattle.std.specs.List.{concat, repeat};
ghost use Rattle.std.specs.Prelude.{◌≡◌, ◌+◌, ◌-◌, ◌^◌, length, map, min, reverse};

use ruby_builtin_base::character_count;

/// The size of a text, or 2^64 - 1 where it is more.
pub fn size(text: &[u8]) -> u64
    ensures { result ≡ min (16 + length text.now) (2 ^ 64 - 1) }
{
    (text.len() as u64).saturating_add(16)
}

/// The size of a text so many times, or 2^64 - 1 where it is more.
pub fn repeated_size(text: &[u8], times: u64) -> u64
    ensures { result ≡ min (sizes_of.size (Str (repeat times text.now))) (2 ^ 64 - 1) }
{
    (text.len() as u64).saturating_mul(times).saturating_add(16)
}

/// The size of a text with its characters from the last to the first, or 2^64 - 1 where it is more.
pub fn reversed_size(text: &[u8]) -> u64
    ensures { result ≡ min (sizes_of.size (Str (concat (reverse (characters text.now))))) (2 ^ 64 - 1) }
{
    size(text)
}

/// The size of a text's characters, each as a text of its own, or 2^64 - 1 where it is more.
pub fn characters_size(text: &[u8]) -> u64
    ensures { result ≡ min (sizes_of.size (Array (map Str (characters text.now)))) (2 ^ 64 - 1) }
{
    (character_count(text) as u64)
        .saturating_mul(16)
        .saturating_add(size(text))
}
