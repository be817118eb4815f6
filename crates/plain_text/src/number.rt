ghost use Rattle.std.specs.Prelude.{◌≡◌, ◌≤◌, ◌++◌, length, IfOk, OnOk};
ghost use Rattle.std.specs.Fmt.{signed_decimal};
ghost use Rattle.std.specs.Fmt.{decimal as unsigned_decimal};

use ruby_types::Text;
use std::alloc::{AllocError, Global};

/// The number in decimal digits, with a minus before them where it is below zero.
pub fn decimal(alloc: Global, n: i64) -> Result<Text, AllocError>
    ensures { IfOk result (λ text. text ≡ signed_decimal n) }
{
    let mut written = Vec::new(alloc);
    push_decimal(alloc, &mut written, n)?;
    Text::from_vec(alloc, written)
}

/// Writes a number behind what is there, as [`decimal`] shows it.
pub fn push_decimal(alloc: Global, written: &mut Vec<u8>, n: i64) -> Result<(), AllocError>
    ensures { OnOk result (written.new.items ≡ written.old.items ++ signed_decimal n) }
{
    let digits = format!(in alloc; "{n}")?;
    written.extend_from_slice(digits.as_bytes())
}

/// The number of bytes that [`decimal`] writes.
pub fn decimal_len(n: i64) -> u64
    ensures { result ≡ length (signed_decimal n) }
{
    if n < 0 {
        digits_len(n.unsigned_abs()) + 1
    } else {
        digits_len(n.unsigned_abs())
    }
}

fn digits_len(n: u64) -> u64
    ensures value { result ≡ length (unsigned_decimal n) }
    ensures few { result ≤ 20 }
{
    let mut count = 1u64;
    let mut rest = n;
    'digits: while rest >= 10 {
        rest /= 10;
        count += 1;
    }
    count
}
