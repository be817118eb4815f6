ghost use Rattle.std.specs.Prelude.{◌≡◌, MatchOption, None};
ghost use Rattle.ruby_builtin_base.specs.Answers.{OrMemory, Says, row_answered};
ghost use Rattle.ruby_builtin_base.specs.Rows.{row_of, row_at};
ghost use Rattle.ruby_builtin_common.specs.CommonRows.{value_rows};

use case_table::{Case, cases, find_in};
use ruby_builtin_base::{Call, Called, inspect, inspect_len, to_s, to_s_len};
use ruby_types::{Value, copy, equal, size};

const EQUAL: u16 = 0;

const FREEZE: u16 = 1;

const FROZEN: u16 = 2;

const INSPECT: u16 = 3;

const NIL: u16 = 4;

const TO_S: u16 = 5;

/// The names of the rows in the order of their bytes.
static ROWS: [Case; 6] = [
    Case {
        name: b"==",
        code: EQUAL,
    },
    Case {
        name: b"freeze",
        code: FREEZE,
    },
    Case {
        name: b"frozen?",
        code: FROZEN,
    },
    Case {
        name: b"inspect",
        code: INSPECT,
    },
    Case {
        name: b"nil?",
        code: NIL,
    },
    Case {
        name: b"to_s",
        code: TO_S,
    },
];

/// The place of the row with this name.
fn place(name: &[u8]) -> Option<u16>
    ensures { MatchOption result (row_of value_rows name.now ≡ None)
        (λ place. row_of value_rows name.now ≡ row_at value_rows place) }
{
    find_in(&ROWS, name)
}

/// Answers a call of a method that every value has.
pub fn call_value(call: &Call, on: &Value) -> Called
    ensures { OrMemory result (row_answered call.now on.now (row_of value_rows call.now.name.now)) }
{
    let Some(place) = place(call.name) else {
        return Called::NoMethod;
    };
    match by_place(call, on, place) {
        Ok(called) => called,
        Err(refused) => refused,
    }
}

fn by_place(call: &Call, on: &Value, place: u16) -> Result<Called, Called>
    ensures { Says result (row_answered call.now on.now (row_at value_rows place)) }
{
    cases!(Some(place);
        EQUAL => Ok(call.truth(equal(on, call.one_value()?))),
        FREEZE => {
            call.no_argument()?;
            let paid = call.pays(size(on))?;
            Ok(Called::Value(copy(on)?, paid))
        },
        FROZEN => {
            call.no_argument()?;
            Ok(call.truth(true))
        },
        INSPECT => {
            call.no_argument()?;
            let paid = call.pays(inspect_len(on).saturating_add(16))?;
            Ok(Called::Value(Value::Str(inspect(call.alloc, on)?), paid))
        },
        NIL => {
            call.no_argument()?;
            Ok(call.truth(matches!(on, Value::Nil)))
        },
        TO_S => {
            call.no_argument()?;
            let paid = call.pays(to_s_len(on).saturating_add(16))?;
            Ok(Called::Value(Value::Str(to_s(call.alloc, on)?), paid))
        };
        Ok(Called::NoMethod)
    )
}
