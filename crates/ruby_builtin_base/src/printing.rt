ghost use Rattle.std.specs.Prelude.{◌≡◌, ◌++◌, ◌∷◌, [], map, IfOk, OnOk, if◌then◌else◌};
ghost use Rattle.ruby_builtin_base.specs.Printed as spec;

use plain_text::{push_decimal, push_path, push_quoted};
use ruby_types::{ErrorClass, RubyError, Text, Value};
use std::alloc::{AllocError, Global};

/// A value as Ruby's `inspect` shows it: `[1, "a", nil, {:b=>:c}]`.
pub fn inspect(alloc: Global, value: &Value) -> Result<Text, AllocError>
    ensures { IfOk result (λ text. text ≡ spec.inspect value.now) }
{
    let mut out = Vec::new(alloc);
    push_inspect(alloc, &mut out, value)?;
    Text::from_vec(alloc, out)
}

/// A value as Ruby's `to_s` shows it: nil is empty, texts and symbols are their text, all else is as `inspect` shows
/// it.
pub fn to_s(alloc: Global, value: &Value) -> Result<Text, AllocError>
    ensures { IfOk result (λ text. text ≡ spec.to_s value.now) }
{
    let mut out = Vec::new(alloc);
    push_to_s(alloc, &mut out, value)?;
    Text::from_vec(alloc, out)
}

/// Writes a value behind what is there, as [`to_s`] shows it.
pub fn push_to_s(alloc: Global, out: &mut Vec<u8>, value: &Value) -> Result<(), AllocError>
    ensures { OnOk result (out.new.items ≡ out.old.items ++ spec.to_s value.now) }
{
    match value {
        Value::Nil => Ok(()),
        Value::Str(text) | Value::Sym(text) => out.extend_from_slice(text.as_bytes()),
        _ => push_inspect(alloc, out, value),
    }
}

/// Writes a value behind what is there, as [`inspect`] shows it.
#[cycle(inspect)]
pub fn push_inspect(alloc: Global, out: &mut Vec<u8>, value: &Value) -> Result<(), AllocError>
    ensures { OnOk result (out.new.items ≡ out.old.items ++ spec.inspect value.now) }
{
    match value {
        Value::Nil => out.extend_from_slice(b"nil"),
        Value::True => out.extend_from_slice(b"true"),
        Value::False => out.extend_from_slice(b"false"),
        Value::Int(number) => push_decimal(alloc, out, *number),
        Value::Str(text) => push_quoted(out, text.as_bytes()),
        Value::Sym(name) => {
            out.push(b':')?;
            out.extend_from_slice(name.as_bytes())
        }
        Value::Array(items) => {
            out.push(b'[')?;
            push_items(alloc, out, items.as_slice())?;
            out.push(b']')?;
            Ok(())
        }
        Value::Hash(pairs) => {
            out.push(b'{')?;
            push_pairs(alloc, out, pairs.as_slice())?;
            out.push(b'}')?;
            Ok(())
        }
        Value::Module(path) => push_path(out, path),
        Value::Object(class, _) => {
            out.extend_from_slice(b"#<")?;
            push_path(out, class)?;
            out.push(b'>')?;
            Ok(())
        }
    }
}

#[cycle(inspect)]
fn push_items(alloc: Global, out: &mut Vec<u8>, items: &[Value]) -> Result<(), AllocError>
    ensures { OnOk result (out.new.items ≡ out.old.items ++ spec.joined (map spec.inspect items.now)) }
{
    let mut first = true;
    for item in items {
        push_comma(out, first)?;
        push_inspect(alloc, out, item)?;
        first = false;
    }
    Ok(())
}

#[cycle(inspect)]
fn push_pairs(alloc: Global, out: &mut Vec<u8>, pairs: &[(Value, Value)]) -> Result<(), AllocError>
    ensures { OnOk result (out.new.items ≡ out.old.items ++ spec.joined (map spec.inspect_pair pairs.now)) }
{
    let mut first = true;
    for (key, value) in pairs {
        push_comma(out, first)?;
        push_inspect(alloc, out, key)?;
        out.extend_from_slice(b"=>")?;
        push_inspect(alloc, out, value)?;
        first = false;
    }
    Ok(())
}

fn push_comma(out: &mut Vec<u8>, first: bool) -> Result<(), AllocError>
    ensures { OnOk result (out.new.items ≡ (if first then out.old.items else out.old.items ++ 44 ∷ 32 ∷ [])) }
{
    if !first {
        out.extend_from_slice(b", ")?;
    }
    Ok(())
}
