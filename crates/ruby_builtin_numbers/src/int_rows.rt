ghost use Rattle.std.specs.Prelude.{◌≡◌, ◌≢◌, [], ◌∷◌, pos, MatchOption, MatchResult, IfOk, None};
ghost use Rattle.ruby_builtin_base.specs.Answers.{OrMemory, Says, Gives, IsRead, IsRefused, answered, row_answered};
ghost use Rattle.ruby_types.specs.declared.value.Value.TheVariants.{Array, Int};
ghost use Rattle.ruby_builtin_base.specs.Rows.{row_of, row_at};
ghost use Rattle.ruby_builtin_numbers.specs.IntRows as spec;
ghost use Rattle.ruby_builtin_numbers.specs.IntRows.{int_rows, takes_divisor};

use crate::whole::{difference, floor_div, floor_rem, magnitude, negated, product, sum};
use case_table::{Case, cases, find_in};
use ruby_builtin_base::{Call, Called};
use ruby_types::{ErrorClass, Items, Value};
use std::alloc::{AllocError, Global};

const REM: u16 = 0;

const TIMES: u16 = 1;

const PLUS: u16 = 2;

const MINUS: u16 = 3;

const NEGATE: u16 = 4;

const DIV: u16 = 5;

const LESS: u16 = 6;

const LESS_OR_SAME: u16 = 7;

const MORE: u16 = 8;

const MORE_OR_SAME: u16 = 9;

const ABS: u16 = 10;

const BETWEEN: u16 = 11;

const CLAMP: u16 = 12;

const DIVMOD: u16 = 13;

const EVEN: u16 = 14;

const ODD: u16 = 15;

const PRED: u16 = 16;

const SUCC: u16 = 17;

const TO_I: u16 = 18;

const ZERO: u16 = 19;

/// The names of the rows in the order of their bytes.
static ROWS: [Case; 20] = [
    Case {
        name: b"%",
        code: REM,
    },
    Case {
        name: b"*",
        code: TIMES,
    },
    Case {
        name: b"+",
        code: PLUS,
    },
    Case {
        name: b"-",
        code: MINUS,
    },
    Case {
        name: b"-@",
        code: NEGATE,
    },
    Case {
        name: b"/",
        code: DIV,
    },
    Case {
        name: b"<",
        code: LESS,
    },
    Case {
        name: b"<=",
        code: LESS_OR_SAME,
    },
    Case {
        name: b">",
        code: MORE,
    },
    Case {
        name: b">=",
        code: MORE_OR_SAME,
    },
    Case {
        name: b"abs",
        code: ABS,
    },
    Case {
        name: b"between?",
        code: BETWEEN,
    },
    Case {
        name: b"clamp",
        code: CLAMP,
    },
    Case {
        name: b"divmod",
        code: DIVMOD,
    },
    Case {
        name: b"even?",
        code: EVEN,
    },
    Case {
        name: b"odd?",
        code: ODD,
    },
    Case {
        name: b"pred",
        code: PRED,
    },
    Case {
        name: b"succ",
        code: SUCC,
    },
    Case {
        name: b"to_i",
        code: TO_I,
    },
    Case {
        name: b"zero?",
        code: ZERO,
    },
];

/// The place of the row with this name.
fn place(name: &[u8]) -> Option<u16>
    ensures { MatchOption result (row_of int_rows name.now ≡ None)
        (λ place. row_of int_rows name.now ≡ row_at int_rows place) }
{
    find_in(&ROWS, name)
}

/// The one argument that is a number and not 0, or the answer to others.
fn divisor(call: &Call) -> Result<i64, Called>
    ensures read { MatchResult result (IsRead takes_divisor call.now) (IsRefused takes_divisor call.now) }
    ensures not_zero { IfOk result (λ m. m ≢ pos 0) }
{
    let m = call.one_int()?;
    if m == 0 {
        return Err(call.raises(ErrorClass::ZeroDivision, b"divided by 0"));
    }
    Ok(m)
}

/// The quotient and what is left.
fn both(call: &Call, quotient: Option<i64>, rest: Option<i64>) -> Called
    ensures { OrMemory result (answered call.now (spec.both quotient rest)) }
{
    match (quotient, rest) {
        (Some(quotient), Some(rest)) => pair(call, quotient, rest),
        _ => call.raises(ErrorClass::Range, b"integer out of range"),
    }
}

fn pair(call: &Call, first: i64, second: i64) -> Called
    ensures { OrMemory result (answered call.now (Gives (Array (Int first ∷ Int second ∷ [])))) }
{
    match call.pays(48) {
        Err(spent) => spent,
        Ok(paid) => match items_of(call.alloc, first, second) {
            Ok(items) => Called::Value(Value::Array(items), paid),
            Err(_) => Called::Memory,
        },
    }
}

fn items_of(alloc: Global, first: i64, second: i64) -> Result<Items, AllocError>
    ensures { IfOk result (λ items. items ≡ Int first ∷ Int second ∷ []) }
{
    Items::from_vec(
        alloc,
        vec![in alloc; Value::Int(first), Value::Int(second)]?,
    )
}

/// The number where it lies between two bounds, else the bound that it passed.
fn clamped(call: &Call, n: i64, low: i64, high: i64) -> Called
    ensures { OrMemory result (answered call.now (spec.clamped low high n)) }
{
    if high < low {
        return call.raises(ErrorClass::Argument, b"min above max");
    }
    call.gives(Value::Int(if n < low {
        low
    } else if high < n {
        high
    } else {
        n
    }))
}

/// Answers a call of a method of numbers.
pub fn call_int(call: &Call, n: i64) -> Called
    ensures { OrMemory result (row_answered call.now n (row_of int_rows call.now.name.now)) }
{
    let Some(place) = place(call.name) else {
        return Called::NoMethod;
    };
    match by_place(call, n, place) {
        Ok(called) => called,
        Err(refused) => refused,
    }
}

fn by_place(call: &Call, n: i64, place: u16) -> Result<Called, Called>
    ensures { Says result (row_answered call.now n (row_at int_rows place)) }
{
    cases!(Some(place);
        REM => Ok(call.integer(floor_rem(n, divisor(call)?))),
        TIMES => Ok(call.integer(product(n, call.one_int()?))),
        PLUS => Ok(call.integer(sum(n, call.one_int()?))),
        MINUS => Ok(call.integer(difference(n, call.one_int()?))),
        NEGATE => {
            call.no_argument()?;
            Ok(call.integer(negated(n)))
        },
        DIV => Ok(call.integer(floor_div(n, divisor(call)?))),
        LESS => Ok(call.truth(n < call.one_int()?)),
        LESS_OR_SAME => Ok(call.truth(n <= call.one_int()?)),
        MORE => Ok(call.truth(n > call.one_int()?)),
        MORE_OR_SAME => Ok(call.truth(n >= call.one_int()?)),
        ABS => {
            call.no_argument()?;
            Ok(call.integer(magnitude(n)))
        },
        BETWEEN => {
            let (low, high) = call.two_ints()?;
            Ok(call.truth(low <= n && n <= high))
        },
        CLAMP => {
            let (low, high) = call.two_ints()?;
            Ok(clamped(call, n, low, high))
        },
        DIVMOD => {
            let m = divisor(call)?;
            Ok(both(call, floor_div(n, m), floor_rem(n, m)))
        },
        EVEN => {
            call.no_argument()?;
            Ok(call.truth(n.unsigned_abs() % 2 == 0))
        },
        ODD => {
            call.no_argument()?;
            Ok(call.truth(n.unsigned_abs() % 2 == 1))
        },
        PRED => {
            call.no_argument()?;
            Ok(call.integer(difference(n, 1)))
        },
        SUCC => {
            call.no_argument()?;
            Ok(call.integer(sum(n, 1)))
        },
        TO_I => {
            call.no_argument()?;
            Ok(call.gives(Value::Int(n)))
        },
        ZERO => {
            call.no_argument()?;
            Ok(call.truth(n == 0))
        };
        Ok(Called::NoMethod)
    )
}
