ghost use Rattle.ruby_builtin_base.specs.Answers.{OrMemory, Says, Gives, answered, row_answered};
ghost use Rattle.ruby_builtin_base.specs.Characters.{characters};
ghost use Rattle.ruby_builtin_base.specs.Rows.{row_of, row_at};
ghost use Rattle.ruby_builtin_texts.specs.Parts as parts_of;
ghost use Rattle.ruby_builtin_texts.specs.StrRows as spec;
ghost use Rattle.ruby_builtin_texts.specs.StrRows.{str_rows};
ghost use Rattle.ruby_types.specs.Size as sizes_of;
ghost use Rattle.ruby_types.specs.declared.value.Value.TheVariants.{Array, Str};
ghost use Rattle.std.specs.Char.{to_ascii_lowercase, to_ascii_uppercase};
ghost use Rattle.std.specs.List.{concat};
ghost use Rattle.std.specs.Prelude.{◌≡◌, ◌+◌, ◌-◌, ◌^◌, ◌++◌, length, map, min, reverse, option_copied, MatchOption};
ghost use Rattle.std.specs.Prelude.{None};

use crate::characters::{character_at, characters, reversed};
use crate::letters::{capitalized, downcased, upcased};
use crate::numerals::leading_number;
use crate::parts::{
    compared, ends_with, has_part, joined, repeated, starts_with, stripped, stripped_text,
};
use crate::sizes::{characters_size, repeated_size, reversed_size, size};
use case_table::{Case, cases, find_in};
use lists::Copying;
use ruby_builtin_base::{Call, Called, character_count};
use ruby_types::{ErrorClass, Text, Value};

const TIMES: u16 = 0;

const PLUS: u16 = 1;

const LESS: u16 = 2;

const LESS_OR_SAME: u16 = 3;

const MORE: u16 = 4;

const MORE_OR_SAME: u16 = 5;

const AT: u16 = 6;

const BYTESIZE: u16 = 7;

const CAPITALIZE: u16 = 8;

const CHARS: u16 = 9;

const DOWNCASE: u16 = 10;

const EMPTY: u16 = 11;

const END_WITH: u16 = 12;

const INCLUDE: u16 = 13;

const LENGTH: u16 = 14;

const REVERSE: u16 = 15;

const SIZE: u16 = 16;

const START_WITH: u16 = 17;

const STRIP: u16 = 18;

const TO_I: u16 = 19;

const TO_SYM: u16 = 20;

const UPCASE: u16 = 21;

/// The names of the rows in the order of their bytes.
static ROWS: [Case; 22] = [
    Case {
        name: b"*",
        code: TIMES,
    },
    Case {
        name: b"+",
        code: PLUS,
    },
    Case {
        name: b"<",
        code: LESS,
    },
    Case {
        name: b"<=",
        code: LESS_OR_SAME,
    },
    Case {
        name: b">",
        code: MORE,
    },
    Case {
        name: b">=",
        code: MORE_OR_SAME,
    },
    Case {
        name: b"[]",
        code: AT,
    },
    Case {
        name: b"bytesize",
        code: BYTESIZE,
    },
    Case {
        name: b"capitalize",
        code: CAPITALIZE,
    },
    Case {
        name: b"chars",
        code: CHARS,
    },
    Case {
        name: b"downcase",
        code: DOWNCASE,
    },
    Case {
        name: b"empty?",
        code: EMPTY,
    },
    Case {
        name: b"end_with?",
        code: END_WITH,
    },
    Case {
        name: b"include?",
        code: INCLUDE,
    },
    Case {
        name: b"length",
        code: LENGTH,
    },
    Case {
        name: b"reverse",
        code: REVERSE,
    },
    Case {
        name: b"size",
        code: SIZE,
    },
    Case {
        name: b"start_with?",
        code: START_WITH,
    },
    Case {
        name: b"strip",
        code: STRIP,
    },
    Case {
        name: b"to_i",
        code: TO_I,
    },
    Case {
        name: b"to_sym",
        code: TO_SYM,
    },
    Case {
        name: b"upcase",
        code: UPCASE,
    },
];

/// The place of the row with this name.
fn place(name: &[u8]) -> Option<u16>
    ensures { MatchOption result (row_of str_rows name.now ≡ None)
        (λ place. row_of str_rows name.now ≡ row_at str_rows place) }
{
    find_in(&ROWS, name)
}

/// A text so many times.
fn times(call: &Call, text: &[u8], n: i64) -> Result<Called, Called>
    ensures { Says result (answered call.now (spec.times text.now n)) }
{
    if n < 0 {
        return Ok(call.raises(ErrorClass::Argument, b"negative argument"));
    }
    let n = n.unsigned_abs();
    let paid = call.pays(repeated_size(text, n))?;
    Ok(Called::Value(Value::Str(repeated(call.alloc, text, n)?), paid))
}

/// One text behind another.
fn plus(call: &Call, text: &[u8], other: &[u8]) -> Result<Called, Called>
    ensures { Says result (answered call.now (spec.text (text.now ++ other.now))) }
{
    let paid = call.pays(size(text).saturating_add(other.len() as u64))?;
    Ok(Called::Value(Value::Str(joined(call.alloc, text, other)?), paid))
}

/// A text with its first letter raised and all others fallen.
fn capitalize(call: &Call, text: &[u8]) -> Result<Called, Called>
    ensures { Says result (answered call.now (spec.text (parts_of.capitalized text.now))) }
{
    let paid = call.pays(size(text))?;
    Ok(Called::Value(Value::Str(capitalized(call.alloc, text)?), paid))
}

/// A text with all letters fallen.
fn downcase(call: &Call, text: &[u8]) -> Result<Called, Called>
    ensures { Says result (answered call.now (spec.text (map to_ascii_lowercase text.now))) }
{
    let paid = call.pays(size(text))?;
    Ok(Called::Value(Value::Str(downcased(call.alloc, text)?), paid))
}

/// A text with all letters raised.
fn upcase(call: &Call, text: &[u8]) -> Result<Called, Called>
    ensures { Says result (answered call.now (spec.text (map to_ascii_uppercase text.now))) }
{
    let paid = call.pays(size(text))?;
    Ok(Called::Value(Value::Str(upcased(call.alloc, text)?), paid))
}

/// A text with its characters from the last to the first.
fn reverse(call: &Call, text: &[u8]) -> Result<Called, Called>
    ensures { Says result (answered call.now (spec.text (concat (reverse (characters text.now))))) }
{
    let paid = call.pays(reversed_size(text))?;
    Ok(Called::Value(Value::Str(reversed(call.alloc, text)?), paid))
}

/// The characters of a text, each as a text of its own.
fn chars(call: &Call, text: &[u8]) -> Result<Called, Called>
    ensures { Says result (answered call.now (Gives (Array (map Str (characters text.now))))) }
{
    let paid = call.pays(characters_size(text))?;
    Ok(Called::Value(Value::Array(characters(call.alloc, text)?), paid))
}

/// A part of a text, or nil where there is none.
fn text_or_nil(call: &Call, part: Option<&[u8]>) -> Result<Called, Called>
    ensures { Says result (answered call.now (spec.text_or_nil (option_copied part.entry))) }
{
    match part {
        None => Ok(call.gives(Value::Nil)),
        Some(part) => part_of(call, part),
    }
}

/// A part of a text as a text of its own.
fn part_of(call: &Call, part: &[u8]) -> Result<Called, Called>
    ensures { Says result (answered call.now (spec.text part.now)) }
{
    let paid = call.pays(size(part))?;
    Ok(Called::Value(Value::Str(Text::from_bytes(call.alloc, part)?), paid))
}

/// A text without the white bytes at both ends.
fn strip(call: &Call, text: &Text) -> Result<Called, Called>
    ensures { Says result (answered call.now (spec.text (parts_of.stripped text.now))) }
{
    let paid = call.pays(size(stripped(text.as_bytes())))?;
    Ok(Called::Value(Value::Str(stripped_text(call.alloc, text)?), paid))
}

/// Answers a call of a method of texts.
pub fn call_str(call: &Call, text: &Text) -> Called
    ensures { OrMemory result (row_answered call.now text.now (row_of str_rows call.now.name.now)) }
{
    let Some(place) = place(call.name) else {
        return Called::NoMethod;
    };
    match by_place(call, text, place) {
        Ok(called) => called,
        Err(refused) => refused,
    }
}

fn by_place(call: &Call, text: &Text, place: u16) -> Result<Called, Called>
    ensures { Says result (row_answered call.now text.now (row_at str_rows place)) }
{
    let bytes = text.as_bytes();
    cases!(Some(place);
        TIMES => times(call, bytes, call.one_int()?),
        PLUS => plus(call, bytes, call.one_text()?.as_bytes()),
        LESS => Ok(call.truth(compared(bytes, call.one_text()?.as_bytes()).is_lt())),
        LESS_OR_SAME => Ok(call.truth(compared(bytes, call.one_text()?.as_bytes()).is_le())),
        MORE => Ok(call.truth(compared(bytes, call.one_text()?.as_bytes()).is_gt())),
        MORE_OR_SAME => Ok(call.truth(compared(bytes, call.one_text()?.as_bytes()).is_ge())),
        AT => text_or_nil(call, character_at(bytes, call.one_int()?)),
        BYTESIZE => {
            call.no_argument()?;
            Ok(call.count(bytes.len()))
        },
        CAPITALIZE => {
            call.no_argument()?;
            capitalize(call, bytes)
        },
        CHARS => {
            call.no_argument()?;
            chars(call, bytes)
        },
        DOWNCASE => {
            call.no_argument()?;
            downcase(call, bytes)
        },
        EMPTY => {
            call.no_argument()?;
            Ok(call.truth(bytes.is_empty()))
        },
        END_WITH => Ok(call.truth(ends_with(bytes, call.one_text()?.as_bytes()))),
        INCLUDE => Ok(call.truth(has_part(bytes, call.one_text()?.as_bytes()))),
        LENGTH => {
            call.no_argument()?;
            Ok(call.count(character_count(bytes)))
        },
        REVERSE => {
            call.no_argument()?;
            reverse(call, bytes)
        },
        SIZE => {
            call.no_argument()?;
            Ok(call.count(character_count(bytes)))
        },
        START_WITH => Ok(call.truth(starts_with(bytes, call.one_text()?.as_bytes()))),
        STRIP => {
            call.no_argument()?;
            strip(call, text)
        },
        TO_I => {
            call.no_argument()?;
            Ok(call.integer(leading_number(bytes)))
        },
        TO_SYM => {
            call.no_argument()?;
            let paid = call.pays(size(bytes))?;
            Ok(Called::Value(Value::Sym(text.copy()?), paid))
        },
        UPCASE => {
            call.no_argument()?;
            upcase(call, bytes)
        };
        Ok(Called::NoMethod)
    )
}
