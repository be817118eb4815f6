//! Numbers in decimal digits.
ghost use Rattle.std.specs.Prelude.{◌≡◌, ◌≤◌, ◌<◌, ◌^◌, ℕ, true, length, Some, MatchOption};
ghost use Rattle.std.specs.Fmt.{decimal};
ghost use Rattle.std.specs.Str.{all_ascii_digits};
ghost use Rattle.std.specs.Str.Parse.{digits_value};
ghost use Rattle.word_forms.specs.Numbers.{begins_with_zero, value_within, number_of};

fn are_digits(word: &[u8]) -> bool
    ensures { result ≡ all_ascii_digits word.now }
{
    for byte in word {
        if !byte.is_ascii_digit() {
            return false;
        }
    }
    true
}

fn begins_with_zero(word: &[u8]) -> bool
    ensures { result ≡ begins_with_zero word.now }
{
    match word {
        [] => false,
        [first, ..] => *first == b'0',
    }
}

// What digits are worth, or None where that is past 32 bits.
fn value_of(digits: &[u8]) -> Option<u32>
    requires digits { all_ascii_digits digits.now ≡ true }
    requires some { 0 < length digits.now }
    ensures { let value = digits_value 10 digits.now in
        MatchOption result (2 ^ 32 ≤ value) (λ n. (n ≡ value) × (n < 2 ^ 32)) }
{
    match std::str::from_utf8(digits) {
        Ok(text) => match text.parse::<u32>() {
            Ok(number) => Some(number),
            Err(_) => None,
        },
        Err(_) => None,
    }
}

fn value_within(most: u32, number: u32) -> Option<u32>
    ensures { result ≡ value_within most number }
{
    if 1 <= number && number <= most {
        Some(number)
    } else {
        None
    }
}

/// The number from 1 to `most` that a word is, in decimal digits without sign or leading 0, or None where it is none.
pub fn number_of(word: &[u8], most: u32) -> Option<u32>
    ensures number { result ≡ number_of most word.now }
    ensures printed { (n : ℕ) → result ≡ Some n → word.now ≡ decimal n }
{
    if word.is_empty() || begins_with_zero(word) || !are_digits(word) {
        return None;
    }
    match value_of(word) {
        None => None,
        Some(number) => value_within(most, number),
    }
}
