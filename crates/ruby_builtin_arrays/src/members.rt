ghost use Rattle.std.specs.Prelude.{◌≡◌, ◌++◌, ◌-◌, ◌^◌, min, map, reverse, filter, take, drop, IfOk, OnOk};
ghost use Rattle.std.specs.Prelude.{MatchOption};
ghost use Rattle.std.specs.Prelude.{Some, None};
ghost use Rattle.std.specs.List.{sum, list_any};
ghost use Rattle.ruby_types.specs.Size as sizes;
ghost use Rattle.ruby_types.specs.declared.value.Value.TheVariants.{Array};
ghost use Rattle.ruby_builtin_base.specs.Answers.{OrMemory, Gives, answered};
ghost use Rattle.ruby_builtin_arrays.specs.Members as spec;

use crate::giving::{gives_copy, gives_members, members_size};
use lists::Copying;
use ruby_builtin_base::{Call, Called};
use ruby_types::{Items, Value, copy, equal, size};
use std::alloc::{AllocError, Global};

/// The member at a place, which counts from the end where it is below 0.
pub fn member_at(members: &[Value], place: i64) -> Option<&Value>
    ensures { MatchOption result (spec.member_at members.now place ≡ None)
        (λ member. spec.member_at members.now place ≡ Some member.now) }
{
    let steps = place.unsigned_abs() as usize;
    if place >= 0 {
        members.get(steps)
    } else if steps <= members.len() {
        members.get(members.len() - steps)
    } else {
        None
    }
}

/// Answers with a member, or with nil where there is none.
pub fn gives_member(call: &Call, members: &[Value], place: i64) -> Called
    ensures { OrMemory result (answered call.now (Gives (spec.or_nil (spec.member_at members.now place)))) }
{
    match member_at(members, place) {
        Some(member) => gives_copy(call, member),
        None => call.gives(Value::Nil),
    }
}

/// Whether a member is the same as this value.
pub fn includes(members: &[Value], value: &Value) -> bool
    ensures { result ≡ spec.includes members.now value.now }
{
    for member in members {
        if equal(member, value) {
            return true;
        }
    }
    false
}

/// Answers with the whole array, whose members are shared.
fn gives_all(call: &Call, members: &Items) -> Called
    ensures { OrMemory result (answered call.now (Gives (Array members.now))) }
{
    match call.pays(members_size(members.as_slice()).saturating_add(16)) {
        Err(spent) => spent,
        Ok(paid) => match members.copy() {
            Ok(copied) => Called::Value(Value::Array(copied), paid),
            Err(_) => Called::Memory,
        },
    }
}

/// Answers with the first so many members, or with all.
pub fn gives_front(call: &Call, members: &Items, n: usize) -> Called
    ensures { OrMemory result (answered call.now (Gives (Array (take n members.now)))) }
{
    if members.len() <= n {
        gives_all(call, members)
    } else {
        gives_members(call, &members.as_slice()[..n])
    }
}

/// Answers with the members behind the first so many.
pub fn gives_back(call: &Call, members: &Items, n: usize) -> Called
    ensures { OrMemory result (answered call.now (Gives (Array (drop n members.now)))) }
{
    if n == 0 {
        gives_all(call, members)
    } else if n < members.len() {
        gives_members(call, &members.as_slice()[n..])
    } else {
        gives_members(call, &[])
    }
}

/// Whether a value isn't nil.
fn is_present(value: &Value) -> bool
    ensures { result ≡ spec.is_present value.now }
{
    !matches!(value, Value::Nil)
}

/// The sizes of the members that aren't nil, or 2^64 - 1 where they are more.
fn present_size(members: &[Value]) -> u64
    ensures { result ≡ min (sum (map sizes.size (filter spec.is_present members.now))) (2 ^ 64 - 1) }
{
    let mut total = 0u64;
    for member in members {
        if is_present(member) {
            total = total.saturating_add(size(member));
        }
    }
    total
}

fn present(alloc: Global, members: &[Value]) -> Result<Items, AllocError>
    ensures { IfOk result (λ items. items ≡ filter spec.is_present members.now) }
{
    let mut kept = Vec::new(alloc);
    for member in members {
        if is_present(member) {
            kept.push(copy(member)?)?;
        }
    }
    Items::from_vec(alloc, kept)
}

/// Answers with the members that aren't nil.
pub fn gives_present(call: &Call, members: &[Value]) -> Called
    ensures { OrMemory result (answered call.now (Gives (Array (filter spec.is_present members.now)))) }
{
    match call.pays(present_size(members).saturating_add(16)) {
        Err(spent) => spent,
        Ok(paid) => match present(call.alloc, members) {
            Ok(items) => Called::Value(Value::Array(items), paid),
            Err(_) => Called::Memory,
        },
    }
}

fn push_copies(all: &mut Vec<Value>, members: &[Value]) -> Result<(), AllocError>
    ensures { OnOk result (all.new.items ≡ all.old.items ++ members.now) }
{
    for member in members {
        all.push(copy(member)?)?;
    }
    Ok(())
}

fn appended(alloc: Global, first: &[Value], second: &[Value]) -> Result<Items, AllocError>
    ensures { IfOk result (λ items. items ≡ first.now ++ second.now) }
{
    let mut all = Vec::with_capacity(alloc, first.len().saturating_add(second.len()))?;
    push_copies(&mut all, first)?;
    push_copies(&mut all, second)?;
    Items::from_vec(alloc, all)
}

/// Answers with the members of one array and behind them those of another.
pub fn gives_both(call: &Call, first: &[Value], second: &[Value]) -> Called
    ensures { OrMemory result (answered call.now (Gives (Array (first.now ++ second.now)))) }
{
    let made = members_size(first).saturating_add(members_size(second));
    match call.pays(made.saturating_add(16)) {
        Err(spent) => spent,
        Ok(paid) => match appended(call.alloc, first, second) {
            Ok(items) => Called::Value(Value::Array(items), paid),
            Err(_) => Called::Memory,
        },
    }
}

fn reversed(alloc: Global, members: &[Value]) -> Result<Items, AllocError>
    ensures { IfOk result (λ items. items ≡ reverse members.now) }
{
    let mut all = Vec::with_capacity(alloc, members.len())?;
    push_copies(&mut all, members)?;
    all.reverse();
    Items::from_vec(alloc, all)
}

/// The members weigh the same in this order.
#[tactic(auto, using(crate::proofs::MemberLaws::sizes_reversed))]
fn reversed_size(members: &[Value]) -> u64
    ensures { result ≡ min (sum (map sizes.size (reverse members.now))) (2 ^ 64 - 1) }
{
    members_size(members)
}

/// Answers with the members, the last first.
pub fn gives_reversed(call: &Call, members: &[Value]) -> Called
    ensures { OrMemory result (answered call.now (Gives (Array (reverse members.now)))) }
{
    match call.pays(reversed_size(members).saturating_add(16)) {
        Err(spent) => spent,
        Ok(paid) => match reversed(call.alloc, members) {
            Ok(items) => Called::Value(Value::Array(items), paid),
            Err(_) => Called::Memory,
        },
    }
}
