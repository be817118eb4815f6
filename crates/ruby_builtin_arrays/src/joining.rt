ghost use Rattle.std.specs.Prelude.{◌≡◌, ◌++◌, ◌-◌, ◌^◌, min, map, length, IfOk, OnOk};
ghost use Rattle.std.specs.List.{sum, list_any};
ghost use Rattle.ruby_builtin_base.specs.Answers.{OrMemory, answered};
ghost use Rattle.ruby_builtin_base.specs.Printed.{to_s};
ghost use Rattle.ruby_builtin_arrays.specs.ArrayRows.{joined_members};
ghost use Rattle.ruby_builtin_arrays.specs.Members as spec;

use ruby_builtin_base::{Call, Called, push_to_s, to_s_len};
use ruby_types::{Text, Value};
use std::alloc::{AllocError, Global};

/// The bytes of the members' texts with another before each, or 2^64 - 1 where they are more.
fn behind_len(members: &[Value], between: &[u8]) -> u64
    ensures { result ≡ min (sum (map (spec.behind_size between.now) members.now)) (2 ^ 64 - 1) }
{
    let mut total = 0u64;
    for member in members {
        total = total
            .saturating_add(between.len() as u64)
            .saturating_add(to_s_len(member));
    }
    total
}

/// The bytes of the members' texts with another between them, or 2^64 - 1 where they are more.
#[tactic(auto, using(crate::proofs::MemberLaws::joined_lengths))]
fn joined_len(members: &[Value], between: &[u8]) -> u64
    ensures { result ≡ min (length (spec.joined_by between.now (map to_s members.now))) (2 ^ 64 - 1) }
{
    match members.split_first() {
        None => 0,
        Some((first, others)) => to_s_len(first).saturating_add(behind_len(others, between)),
    }
}

fn push_behind(
    alloc: Global,
    out: &mut Vec<u8>,
    members: &[Value],
    between: &[u8],
) -> Result<(), AllocError>
    ensures { OnOk result (out.new.items ≡ out.old.items ++ spec.each_behind between.now (map to_s members.now)) }
{
    for member in members {
        out.extend_from_slice(between)?;
        push_to_s(alloc, out, member)?;
    }
    Ok(())
}

fn joined(alloc: Global, members: &[Value], between: &[u8]) -> Result<Text, AllocError>
    ensures { IfOk result (λ text. text ≡ spec.joined_by between.now (map to_s members.now)) }
{
    let Some((first, others)) = members.split_first() else {
        return Ok(Text::new(alloc));
    };
    let mut out = Vec::new(alloc);
    push_to_s(alloc, &mut out, first)?;
    push_behind(alloc, &mut out, others, between)?;
    Text::from_vec(alloc, out)
}

fn is_array(value: &Value) -> bool
    ensures { result ≡ spec.is_array value.now }
{
    matches!(value, Value::Array(_))
}

fn has_array(members: &[Value]) -> bool
    ensures { result ≡ list_any spec.is_array members.now }
{
    for member in members {
        if is_array(member) {
            return true;
        }
    }
    false
}

/// Answers with the members' texts, another between them, where no member is an array.
pub fn gives_joined(call: &Call, members: &[Value], between: &[u8]) -> Called
    ensures { OrMemory result (answered call.now (joined_members members.now between.now)) }
{
    if has_array(members) {
        return call.wrong_argument();
    }
    match call.pays(joined_len(members, between).saturating_add(16)) {
        Err(spent) => spent,
        Ok(paid) => match joined(call.alloc, members, between) {
            Ok(text) => Called::Value(Value::Str(text), paid),
            Err(_) => Called::Memory,
        },
    }
}
