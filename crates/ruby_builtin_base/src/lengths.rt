ghost use Rattle.std.specs.Prelude.{◌≡◌, ◌-◌, ◌^◌, length, map, min, if◌then◌else◌};
ghost use Rattle.ruby_builtin_base.specs.Printed as spec;

use plain_text::{decimal_len, quoted_len};
use ruby_types::{Value, path_size};

/// The number of bytes that `to_s` gives, or 2^64 - 1 where they are more.
pub fn to_s_len(value: &Value) -> u64
    ensures { result ≡ min (length (spec.to_s value.now)) (2 ^ 64 - 1) }
{
    match value {
        Value::Nil => 0,
        Value::Str(text) | Value::Sym(text) => text.len() as u64,
        _ => inspect_len(value),
    }
}

/// The number of bytes that `inspect` gives, or 2^64 - 1 where they are more.
#[cycle(lengths)]
pub fn inspect_len(value: &Value) -> u64
    ensures { result ≡ min (length (spec.inspect value.now)) (2 ^ 64 - 1) }
{
    match value {
        Value::Nil => 3,
        Value::True => 4,
        Value::False => 5,
        Value::Int(number) => decimal_len(*number),
        Value::Str(text) => quoted_len(text.as_bytes()),
        Value::Sym(name) => (name.len() as u64).saturating_add(1),
        Value::Array(items) => items_len(items.as_slice()).saturating_add(2),
        Value::Hash(pairs) => pairs_len(pairs.as_slice()).saturating_add(2),
        Value::Module(path) => path_size(path),
        Value::Object(class, _) => path_size(class).saturating_add(3),
    }
}

#[cycle(lengths)]
fn items_len(items: &[Value]) -> u64
    ensures { result ≡ min (length (spec.joined (map spec.inspect items.now))) (2 ^ 64 - 1) }
{
    let mut first = true;
    let mut total = 0u64;
    for item in items {
        total = total
            .saturating_add(comma_len(first))
            .saturating_add(inspect_len(item));
        first = false;
    }
    total
}

#[cycle(lengths)]
fn pairs_len(pairs: &[(Value, Value)]) -> u64
    ensures { result ≡ min (length (spec.joined (map spec.inspect_pair pairs.now))) (2 ^ 64 - 1) }
{
    let mut first = true;
    let mut total = 0u64;
    for (key, value) in pairs {
        let pair = inspect_len(key)
            .saturating_add(2)
            .saturating_add(inspect_len(value));
        total = total.saturating_add(comma_len(first)).saturating_add(pair);
        first = false;
    }
    total
}

/// Before each member but the first stand two bytes.
fn comma_len(first: bool) -> u64
    ensures { result ≡ (if first then 0 else 2) }
{
    if first { 0 } else { 2 }
}
