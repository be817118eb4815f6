ghost use Rattle.std.specs.Prelude.{◌≡◌, MatchOption, MatchResult, None};
ghost use Rattle.ruby_builtin_base.specs.Answers.{OrMemory, Says, IsRead, IsRefused, row_answered};
ghost use Rattle.ruby_builtin_base.specs.Rows.{row_of, row_at};
ghost use Rattle.ruby_builtin_arrays.specs.ArrayRows.{array_rows, takes_size};

use crate::joining::gives_joined;
use crate::members::{
    gives_back, gives_both, gives_front, gives_member, gives_present, gives_reversed, includes,
};
use crate::numbers::{gives_greatest, gives_least, gives_total};
use case_table::{Case, cases, find_in};
use ruby_builtin_base::{Call, Called};
use ruby_types::{ErrorClass, Items};

const PLUS: u16 = 0;

const AT: u16 = 1;

const COMPACT: u16 = 2;

const DROP: u16 = 3;

const EMPTY: u16 = 4;

const FIRST: u16 = 5;

const INCLUDE: u16 = 6;

const JOIN: u16 = 7;

const LAST: u16 = 8;

const LENGTH: u16 = 9;

const MAX: u16 = 10;

const MIN: u16 = 11;

const REVERSE: u16 = 12;

const SIZE: u16 = 13;

const SUM: u16 = 14;

const TAKE: u16 = 15;

/// The names of the rows in the order of their bytes.
static ROWS: [Case; 16] = [
    Case {
        name: b"+",
        code: PLUS,
    },
    Case {
        name: b"[]",
        code: AT,
    },
    Case {
        name: b"compact",
        code: COMPACT,
    },
    Case {
        name: b"drop",
        code: DROP,
    },
    Case {
        name: b"empty?",
        code: EMPTY,
    },
    Case {
        name: b"first",
        code: FIRST,
    },
    Case {
        name: b"include?",
        code: INCLUDE,
    },
    Case {
        name: b"join",
        code: JOIN,
    },
    Case {
        name: b"last",
        code: LAST,
    },
    Case {
        name: b"length",
        code: LENGTH,
    },
    Case {
        name: b"max",
        code: MAX,
    },
    Case {
        name: b"min",
        code: MIN,
    },
    Case {
        name: b"reverse",
        code: REVERSE,
    },
    Case {
        name: b"size",
        code: SIZE,
    },
    Case {
        name: b"sum",
        code: SUM,
    },
    Case {
        name: b"take",
        code: TAKE,
    },
];

/// The place of the row with this name.
fn place(name: &[u8]) -> Option<u16>
    ensures { MatchOption result (row_of array_rows name.now ≡ None)
        (λ place. row_of array_rows name.now ≡ row_at array_rows place) }
{
    find_in(&ROWS, name)
}

/// The one argument that is a number and not below 0, or the answer to others.
fn one_size(call: &Call) -> Result<usize, Called>
    ensures { MatchResult result (IsRead takes_size call.now) (IsRefused takes_size call.now) }
{
    let n = call.one_int()?;
    if n < 0 {
        return Err(call.raises(ErrorClass::Argument, b"negative size"));
    }
    Ok(n.unsigned_abs() as usize)
}

/// Answers a call of a method of arrays.
pub fn call_array(call: &Call, members: &Items) -> Called
    ensures { OrMemory result (row_answered call.now members.now (row_of array_rows call.now.name.now)) }
{
    let Some(place) = place(call.name) else {
        return Called::NoMethod;
    };
    match by_place(call, members, place) {
        Ok(called) => called,
        Err(refused) => refused,
    }
}

fn by_place(call: &Call, members: &Items, place: u16) -> Result<Called, Called>
    ensures { Says result (row_answered call.now members.now (row_at array_rows place)) }
{
    cases!(Some(place);
        PLUS => Ok(gives_both(call, members.as_slice(), call.one_array()?.as_slice())),
        AT => Ok(gives_member(call, members.as_slice(), call.one_int()?)),
        COMPACT => {
            call.no_argument()?;
            Ok(gives_present(call, members.as_slice()))
        },
        DROP => Ok(gives_back(call, members, one_size(call)?)),
        EMPTY => {
            call.no_argument()?;
            Ok(call.truth(members.len() == 0))
        },
        FIRST => {
            call.no_argument()?;
            Ok(gives_member(call, members.as_slice(), 0))
        },
        INCLUDE => Ok(call.truth(includes(members.as_slice(), call.one_value()?))),
        JOIN => Ok(gives_joined(call, members.as_slice(), call.one_text()?.as_bytes())),
        LAST => {
            call.no_argument()?;
            Ok(gives_member(call, members.as_slice(), -1))
        },
        LENGTH => {
            call.no_argument()?;
            Ok(call.count(members.len()))
        },
        MAX => {
            call.no_argument()?;
            Ok(gives_greatest(call, members.as_slice()))
        },
        MIN => {
            call.no_argument()?;
            Ok(gives_least(call, members.as_slice()))
        },
        REVERSE => {
            call.no_argument()?;
            Ok(gives_reversed(call, members.as_slice()))
        },
        SIZE => {
            call.no_argument()?;
            Ok(call.count(members.len()))
        },
        SUM => {
            call.no_argument()?;
            Ok(gives_total(call, members.as_slice()))
        },
        TAKE => Ok(gives_front(call, members, one_size(call)?));
        Ok(Called::NoMethod)
    )
}
