//! The range of numbers.

ghost use Rattle.std.specs.Prelude.{◌≡◌, ◌≤◌, ◌^◌, nat_le};
ghost use Rattle.ruby_token.specs.Number.{next_value, magnitude, is_in_range};

/// The value with one digit more; an underscore is passed over.
fn next_value(value: u128, digit: u8) -> u128
    requires { value ≤ 2 ^ 63 }
    ensures { result ≡ next_value value digit }
{
    if digit == b'_' {
        value
    } else {
        10 * value + digit.saturating_sub(b'0') as u128
    }
}

/// Whether the value of these digits is at most the limit.
fn is_at_most(digits: &[u8], limit: u64) -> bool
    requires { limit ≤ 2 ^ 63 }
    ensures { result ≡ nat_le (magnitude digits.now) limit }
{
    let mut value = 0;
    'digits: for digit in digits {
        value = next_value(value, *digit);
        if value > limit as u128 {
            return false;
        }
    }
    true
}

/// Whether a number is from -2^63 to 2^63 - 1.
pub fn is_in_range(text: &[u8]) -> bool
    ensures { result ≡ is_in_range text.now }
{
    match text {
        [] => true,
        [b'-', digits @ ..] => is_at_most(digits, 1 << 63),
        _ => is_at_most(text, (1 << 63) - 1),
    }
}
