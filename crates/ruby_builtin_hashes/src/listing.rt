ghost use Rattle.std.specs.Prelude.{◌≡◌, ◌-◌, ◌^◌, min, map, IfOk};
ghost use Rattle.std.specs.List.{sum};
ghost use Rattle.ruby_types.specs.Size as sizes;
ghost use Rattle.ruby_types.specs.declared.value.Value.TheVariants.{Array};
ghost use Rattle.ruby_builtin_base.specs.Answers.{OrMemory, Gives, answered};
ghost use Rattle.ruby_builtin_hashes.specs.Pairs as spec;

use ruby_builtin_base::{Call, Called};
use ruby_types::{Items, Value, copy, size};
use std::alloc::{AllocError, Global};

/// The sizes of the keys, or 2^64 - 1 where they are more.
fn keys_size(pairs: &[(Value, Value)]) -> u64
    ensures { result ≡ min (sum (map (λ pair. sizes.size pair.0) pairs.now)) (2 ^ 64 - 1) }
{
    let mut total = 0u64;
    for pair in pairs {
        total = total.saturating_add(size(&pair.0));
    }
    total
}

fn keys(alloc: Global, pairs: &[(Value, Value)]) -> Result<Items, AllocError>
    ensures { IfOk result (λ items. items ≡ map (λ pair. pair.0) pairs.now) }
{
    let mut all = Vec::with_capacity(alloc, pairs.len())?;
    for pair in pairs {
        all.push(copy(&pair.0)?)?;
    }
    Items::from_vec(alloc, all)
}

/// Answers with the keys.
pub fn gives_keys(call: &Call, pairs: &[(Value, Value)]) -> Called
    ensures { OrMemory result (answered call.now (Gives (Array (map (λ pair. pair.0) pairs.now)))) }
{
    match call.pays(keys_size(pairs).saturating_add(16)) {
        Err(spent) => spent,
        Ok(paid) => match keys(call.alloc, pairs) {
            Ok(items) => Called::Value(Value::Array(items), paid),
            Err(_) => Called::Memory,
        },
    }
}

/// The sizes of the values, or 2^64 - 1 where they are more.
fn values_size(pairs: &[(Value, Value)]) -> u64
    ensures { result ≡ min (sum (map (λ pair. sizes.size pair.1) pairs.now)) (2 ^ 64 - 1) }
{
    let mut total = 0u64;
    for pair in pairs {
        total = total.saturating_add(size(&pair.1));
    }
    total
}

fn values(alloc: Global, pairs: &[(Value, Value)]) -> Result<Items, AllocError>
    ensures { IfOk result (λ items. items ≡ map (λ pair. pair.1) pairs.now) }
{
    let mut all = Vec::with_capacity(alloc, pairs.len())?;
    for pair in pairs {
        all.push(copy(&pair.1)?)?;
    }
    Items::from_vec(alloc, all)
}

/// Answers with the values.
pub fn gives_values(call: &Call, pairs: &[(Value, Value)]) -> Called
    ensures { OrMemory result (answered call.now (Gives (Array (map (λ pair. pair.1) pairs.now)))) }
{
    match call.pays(values_size(pairs).saturating_add(16)) {
        Err(spent) => spent,
        Ok(paid) => match values(call.alloc, pairs) {
            Ok(items) => Called::Value(Value::Array(items), paid),
            Err(_) => Called::Memory,
        },
    }
}

/// The sizes of the pairs as arrays, or 2^64 - 1 where they are more.
fn pair_arrays_size(pairs: &[(Value, Value)]) -> u64
    ensures { result ≡ min (sum (map (λ pair. sizes.size (spec.pair_array pair)) pairs.now)) (2 ^ 64 - 1) }
{
    let mut total = 0u64;
    for pair in pairs {
        let inside = size(&pair.0).saturating_add(size(&pair.1));
        total = total.saturating_add(inside).saturating_add(16);
    }
    total
}

fn pair_array(alloc: Global, pair: &(Value, Value)) -> Result<Value, AllocError>
    ensures { IfOk result (λ value. value ≡ spec.pair_array pair.now) }
{
    let members = vec![in alloc; copy(&pair.0)?, copy(&pair.1)?]?;
    Ok(Value::Array(Items::from_vec(alloc, members)?))
}

fn pair_arrays(alloc: Global, pairs: &[(Value, Value)]) -> Result<Items, AllocError>
    ensures { IfOk result (λ items. items ≡ map spec.pair_array pairs.now) }
{
    let mut all = Vec::with_capacity(alloc, pairs.len())?;
    for pair in pairs {
        all.push(pair_array(alloc, pair)?)?;
    }
    Items::from_vec(alloc, all)
}

/// Answers with the pairs, each as an array of its key and its value.
pub fn gives_pair_arrays(call: &Call, pairs: &[(Value, Value)]) -> Called
    ensures { OrMemory result (answered call.now (Gives (Array (map spec.pair_array pairs.now)))) }
{
    match call.pays(pair_arrays_size(pairs).saturating_add(16)) {
        Err(spent) => spent,
        Ok(paid) => match pair_arrays(call.alloc, pairs) {
            Ok(items) => Called::Value(Value::Array(items), paid),
            Err(_) => Called::Memory,
        },
    }
}
