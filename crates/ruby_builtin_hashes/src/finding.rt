ghost use Rattle.std.specs.Prelude.{◌≡◌, ◌++◌, codes, IfOk, MatchOption, Some, None};
ghost use Rattle.ruby_types.specs.declared.request.ErrorClass.TheVariants as class_of;
ghost use Rattle.ruby_builtin_base.specs.Answers.{OrMemory, Gives, Raises, answered};
ghost use Rattle.ruby_builtin_base.specs.Printed as printed;
ghost use Rattle.ruby_builtin_arrays.specs.Members.{or_nil};
ghost use Rattle.ruby_builtin_hashes.specs.HashRows as rows;
ghost use Rattle.ruby_builtin_hashes.specs.Pairs as spec;

use ruby_builtin_arrays::gives_copy;
use ruby_builtin_base::{Call, Called, push_inspect};
use ruby_types::{ErrorClass, Value, equal};
use std::alloc::{AllocError, Global};

/// The value of the first pair that has this key.
pub fn value_at<'a>(pairs: &'a [(Value, Value)], key: &Value) -> Option<&'a Value>
    ensures { MatchOption result (spec.value_at pairs.now key.now ≡ None)
        (λ value. spec.value_at pairs.now key.now ≡ Some value.now) }
{
    for pair in pairs {
        if equal(&pair.0, key) {
            return Some(&pair.1);
        }
    }
    None
}

/// Answers with the value of a key, or with nil where it isn't there.
pub fn gives_value(call: &Call, pairs: &[(Value, Value)], key: &Value) -> Called
    ensures { OrMemory result (answered call.now (Gives (or_nil (spec.value_at pairs.now key.now)))) }
{
    match value_at(pairs, key) {
        Some(value) => gives_copy(call, value),
        None => call.gives(Value::Nil),
    }
}

fn missing_text(alloc: Global, key: &Value) -> Result<Vec<u8>, AllocError>
    ensures { IfOk result (λ text. text.items ≡ codes "key not found: " ++ printed.inspect key.now) }
{
    let mut text = Vec::from_slice(alloc, b"key not found: ")?;
    push_inspect(alloc, &mut text, key)?;
    Ok(text)
}

/// Answers that a key isn't there.
fn missing(call: &Call, key: &Value) -> Called
    ensures { OrMemory result
        (answered call.now (Raises class_of.Key (codes "key not found: " ++ printed.inspect key.now))) }
{
    match call.pays(0) {
        Err(spent) => spent,
        Ok(_) => match missing_text(call.alloc, key) {
            Ok(text) => call.raises(ErrorClass::Key, text.as_slice()),
            Err(_) => Called::Memory,
        },
    }
}

/// Answers with the value of the first argument, and for a key that isn't there with the second or that it is missing.
pub fn fetched(call: &Call, pairs: &[(Value, Value)]) -> Called
    ensures { OrMemory result (answered call.now (rows.fetched pairs.now call.now.args.now)) }
{
    match call.args {
        [key] => match value_at(pairs, key) {
            Some(value) => gives_copy(call, value),
            None => missing(call, key),
        },
        [key, other] => match value_at(pairs, key) {
            Some(value) => gives_copy(call, value),
            None => gives_copy(call, other),
        },
        _ => call.wrong_count(b"1..2"),
    }
}
