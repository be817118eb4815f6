ghost use Rattle.std.specs.Prelude.{◌≡◌, MatchOption, None};
ghost use Rattle.ruby_builtin_base.specs.Answers.{OrMemory, Says, row_answered};
ghost use Rattle.ruby_builtin_base.specs.Rows.{row_of, row_at};
ghost use Rattle.ruby_builtin_common.specs.CommonRows.{sym_rows};

use case_table::{Case, cases, find_in};
use lists::Copying;
use ruby_builtin_base::{Call, Called, character_count};
use ruby_types::{Text, Value};

const LENGTH: u16 = 0;

const TO_SYM: u16 = 1;

/// The names of the rows in the order of their bytes.
static ROWS: [Case; 2] = [
    Case {
        name: b"length",
        code: LENGTH,
    },
    Case {
        name: b"to_sym",
        code: TO_SYM,
    },
];

/// The place of the row with this name.
fn place(name: &[u8]) -> Option<u16>
    ensures { MatchOption result (row_of sym_rows name.now ≡ None)
        (λ place. row_of sym_rows name.now ≡ row_at sym_rows place) }
{
    find_in(&ROWS, name)
}

/// Answers a call of a method of symbols.
pub fn call_sym(call: &Call, name: &Text) -> Called
    ensures { OrMemory result (row_answered call.now name.now (row_of sym_rows call.now.name.now)) }
{
    let Some(place) = place(call.name) else {
        return Called::NoMethod;
    };
    match by_place(call, name, place) {
        Ok(called) => called,
        Err(refused) => refused,
    }
}

fn by_place(call: &Call, name: &Text, place: u16) -> Result<Called, Called>
    ensures { Says result (row_answered call.now name.now (row_at sym_rows place)) }
{
    cases!(Some(place);
        LENGTH => {
            call.no_argument()?;
            Ok(call.count(character_count(name.as_bytes())))
        },
        TO_SYM => {
            call.no_argument()?;
            let paid = call.pays((name.len() as u64).saturating_add(16))?;
            Ok(Called::Value(Value::Sym(name.copy()?), paid))
        };
        Ok(Called::NoMethod)
    )
}
