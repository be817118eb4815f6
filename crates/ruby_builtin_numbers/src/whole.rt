ghost use Rattle.std.specs.Prelude.{◌≡◌, ◌+ℤ◌, ◌-ℤ◌, ◌*ℤ◌, ◌≢◌, neg_ℤ, pos, unsigned_abs, FitsSigned};
ghost use Rattle.std.specs.Int.{w64};
ghost use Rattle.ruby_builtin_base.specs.Results.{fitted};
ghost use Rattle.ruby_builtin_numbers.specs.Division as spec;

/// The sum, if it is of 64 bits.
pub fn sum(n: i64, m: i64) -> Option<i64>
    ensures { result ≡ fitted (n +ℤ m) }
{
    n.checked_add(m)
}

/// The difference, if it is of 64 bits.
pub fn difference(n: i64, m: i64) -> Option<i64>
    ensures { result ≡ fitted (n -ℤ m) }
{
    n.checked_sub(m)
}

/// The product, if it is of 64 bits.
pub fn product(n: i64, m: i64) -> Option<i64>
    ensures { result ≡ fitted (n *ℤ m) }
{
    n.checked_mul(m)
}

/// The number with the other sign, if it is of 64 bits.
pub fn negated(n: i64) -> Option<i64>
    ensures { result ≡ fitted (neg_ℤ n) }
{
    n.checked_neg()
}

/// The number without its sign, if it is of 64 bits.
pub fn magnitude(n: i64) -> Option<i64>
    ensures { result ≡ fitted (pos (unsigned_abs n)) }
{
    n.checked_abs()
}

/// The quotient rounded down.
pub fn floor_div(n: i64, m: i64) -> Option<i64>
    requires { m ≢ pos 0 }
    ensures { result ≡ fitted (spec.floor_div n m) }
{
    i64::try_from(wide_floor_div(i128::from(n), i128::from(m))).ok()
}

/// What is left by the quotient rounded down. It has the divisor's sign.
pub fn floor_rem(n: i64, m: i64) -> Option<i64>
    requires { m ≢ pos 0 }
    ensures { result ≡ fitted (spec.floor_rem n m) }
{
    i64::try_from(wide_floor_rem(i128::from(n), i128::from(m))).ok()
}

fn wide_floor_div(n: i128, m: i128) -> i128
    requires not_zero { m ≢ pos 0 }
    requires n { FitsSigned w64 n }
    requires m { FitsSigned w64 m }
    ensures { result ≡ spec.floor_div n m }
{
    if m < 0 {
        (-n).div_euclid(-m)
    } else {
        n.div_euclid(m)
    }
}

fn wide_floor_rem(n: i128, m: i128) -> i128
    requires not_zero { m ≢ pos 0 }
    requires n { FitsSigned w64 n }
    requires m { FitsSigned w64 m }
    ensures { result ≡ spec.floor_rem n m }
{
    n - m * wide_floor_div(n, m)
}
