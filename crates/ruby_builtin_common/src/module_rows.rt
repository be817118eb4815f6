ghost use Rattle.std.specs.Prelude.{◌≡◌, MatchOption, None};
ghost use Rattle.ruby_builtin_base.specs.Answers.{OrMemory, Says, row_answered};
ghost use Rattle.ruby_builtin_base.specs.Rows.{row_of, row_at};
ghost use Rattle.ruby_builtin_common.specs.CommonRows.{module_rows};

use case_table::{Case, cases, find_in};
use plain_text::path_text;
use ruby_builtin_base::{Call, Called};
use ruby_types::{CPath, Value, path_size};

const NAME: u16 = 0;

/// The names of the rows in the order of their bytes.
static ROWS: [Case; 1] = [Case {
    name: b"name",
    code: NAME,
}];

/// The place of the row with this name.
fn place(name: &[u8]) -> Option<u16>
    ensures { MatchOption result (row_of module_rows name.now ≡ None)
        (λ place. row_of module_rows name.now ≡ row_at module_rows place) }
{
    find_in(&ROWS, name)
}

/// Answers a call of a method of modules.
pub fn call_module(call: &Call, path: &CPath) -> Called
    ensures { OrMemory result (row_answered call.now path.now (row_of module_rows call.now.name.now)) }
{
    let Some(place) = place(call.name) else {
        return Called::NoMethod;
    };
    match by_place(call, path, place) {
        Ok(called) => called,
        Err(refused) => refused,
    }
}

fn by_place(call: &Call, path: &CPath, place: u16) -> Result<Called, Called>
    ensures { Says result (row_answered call.now path.now (row_at module_rows place)) }
{
    cases!(Some(place);
        NAME => {
            call.no_argument()?;
            let paid = call.pays(path_size(path).saturating_add(16))?;
            Ok(Called::Value(Value::Str(path_text(call.alloc, path)?), paid))
        };
        Ok(Called::NoMethod)
    )
}
