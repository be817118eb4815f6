ghost use Rattle.std.specs.Prelude.{◌≡◌, MatchOption, None};
ghost use Rattle.ruby_builtin_base.specs.Answers.{OrMemory, Says, row_answered};
ghost use Rattle.ruby_builtin_base.specs.Rows.{row_of, row_at};
ghost use Rattle.ruby_builtin_hashes.specs.HashRows.{hash_rows};

use crate::finding::{fetched, gives_value, value_at};
use crate::listing::{gives_keys, gives_pair_arrays, gives_values};
use crate::merging::gives_merged;
use case_table::{Case, cases, find_in};
use ruby_builtin_base::{Call, Called};
use ruby_types::Pairs;

const AT: u16 = 0;

const EMPTY: u16 = 1;

const FETCH: u16 = 2;

const HAS_KEY: u16 = 3;

const KEYS: u16 = 4;

const LENGTH: u16 = 5;

const MERGE: u16 = 6;

const SIZE: u16 = 7;

const TO_A: u16 = 8;

const VALUES: u16 = 9;

/// The names of the rows in the order of their bytes.
static ROWS: [Case; 10] = [
    Case {
        name: b"[]",
        code: AT,
    },
    Case {
        name: b"empty?",
        code: EMPTY,
    },
    Case {
        name: b"fetch",
        code: FETCH,
    },
    Case {
        name: b"key?",
        code: HAS_KEY,
    },
    Case {
        name: b"keys",
        code: KEYS,
    },
    Case {
        name: b"length",
        code: LENGTH,
    },
    Case {
        name: b"merge",
        code: MERGE,
    },
    Case {
        name: b"size",
        code: SIZE,
    },
    Case {
        name: b"to_a",
        code: TO_A,
    },
    Case {
        name: b"values",
        code: VALUES,
    },
];

/// The place of the row with this name.
fn place(name: &[u8]) -> Option<u16>
    ensures { MatchOption result (row_of hash_rows name.now ≡ None)
        (λ place. row_of hash_rows name.now ≡ row_at hash_rows place) }
{
    find_in(&ROWS, name)
}

/// Answers a call of a method of hashes.
pub fn call_hash(call: &Call, pairs: &Pairs) -> Called
    ensures { OrMemory result (row_answered call.now pairs.now (row_of hash_rows call.now.name.now)) }
{
    let Some(place) = place(call.name) else {
        return Called::NoMethod;
    };
    match by_place(call, pairs, place) {
        Ok(called) => called,
        Err(refused) => refused,
    }
}

fn by_place(call: &Call, pairs: &Pairs, place: u16) -> Result<Called, Called>
    ensures { Says result (row_answered call.now pairs.now (row_at hash_rows place)) }
{
    cases!(Some(place);
        AT => Ok(gives_value(call, pairs.as_slice(), call.one_value()?)),
        EMPTY => {
            call.no_argument()?;
            Ok(call.truth(pairs.len() == 0))
        },
        FETCH => Ok(fetched(call, pairs.as_slice())),
        HAS_KEY => Ok(call.truth(value_at(pairs.as_slice(), call.one_value()?).is_some())),
        KEYS => {
            call.no_argument()?;
            Ok(gives_keys(call, pairs.as_slice()))
        },
        LENGTH => {
            call.no_argument()?;
            Ok(call.count(pairs.len()))
        },
        MERGE => Ok(gives_merged(call, pairs.as_slice(), call.one_hash()?.as_slice())),
        SIZE => {
            call.no_argument()?;
            Ok(call.count(pairs.len()))
        },
        TO_A => {
            call.no_argument()?;
            Ok(gives_pair_arrays(call, pairs.as_slice()))
        },
        VALUES => {
            call.no_argument()?;
            Ok(gives_values(call, pairs.as_slice()))
        };
        Ok(Called::NoMethod)
    )
}
