//! The value of a number.

ghost use Rattle.std.specs.Prelude.{◌≡◌, ◌≤◌, ◌^◌, ◌-◌, true, pos, ◌-ℤ◌};
ghost use Rattle.ruby_token.specs.Number.{next_value, magnitude, is_in_range};
ghost use Rattle.ruby_grammar.specs.Values.{number_of};

/// The value with one digit more; an underscore is passed over.
fn next_value(value: u128, digit: u8) -> u128
    requires { value ≤ 2 ^ 63 }
    ensures { result ≡ next_value value digit }
{
    if digit == b'_' {
        value
    } else {
        10 * value + digit.saturating_sub(b'0') as u128
    }
}

/// The value of digits, which is at most 2^63.
fn magnitude(digits: &[u8]) -> u64
    requires { magnitude digits.now ≤ 2 ^ 63 }
    ensures { result ≡ magnitude digits.now }
{
    let mut value = 0u128;
    'digits: for digit in digits {
        value = next_value(value, *digit);
    }
    value as u64
}

/// The value of a number from -2^63 to 2^63 - 1.
pub fn number_value(text: &[u8]) -> i64
    requires { is_in_range text.now ≡ true }
    ensures { result ≡ number_of text.now }
{
    match text {
        [] => 0,
        [b'-', digits @ ..] => negative(magnitude(digits)),
        _ => magnitude(text) as i64,
    }
}

fn negative(magnitude: u64) -> i64
    requires { magnitude ≤ 2 ^ 63 }
    ensures { result ≡ pos 0 -ℤ pos magnitude }
{
    (-(magnitude as i128)) as i64
}
