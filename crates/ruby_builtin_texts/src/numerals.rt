ghost use Rattle.ruby_builtin_base.specs.Results.{fitted};
ghost use Rattle.ruby_builtin_texts.specs.Numerals as spec;
ghost use Rattle.std.specs.Prelude.{◌≡◌, ◌-◌, ◌^◌, min, neg_ℤ, pos};

use crate::parts::without_leading_white;

/// The longest run of digits as a number, or 2^64 - 1 where it is more.
fn digits(bytes: &[u8]) -> u64
    ensures { result ≡ min (spec.with_digits 0 bytes.now) (2 ^ 64 - 1) }
{
    let mut number = 0u64;
    for byte in bytes {
        if !byte.is_ascii_digit() {
            break;
        }
        number = number
            .saturating_mul(10)
            .saturating_add(u64::from(*byte - b'0'));
    }
    number
}

fn negative(magnitude: u64) -> Option<i64>
    ensures { result ≡ fitted (neg_ℤ (pos magnitude)) }
{
    i64::try_from(-i128::from(magnitude)).ok()
}

fn positive(magnitude: u64) -> Option<i64>
    ensures { result ≡ fitted (pos magnitude) }
{
    i64::try_from(magnitude).ok()
}

fn signed_number(bytes: &[u8]) -> Option<i64>
    ensures { result ≡ fitted (spec.signed_number bytes.now) }
{
    match bytes {
        [b'-', rest @ ..] => negative(digits(rest)),
        [b'+', rest @ ..] => positive(digits(rest)),
        _ => positive(digits(bytes)),
    }
}

/// The number with which a text begins, where it is one of 64 bits.
pub fn leading_number(text: &[u8]) -> Option<i64>
    ensures { result ≡ fitted (spec.leading_number text.now) }
{
    signed_number(without_leading_white(text))
}
