//! How long large values take.

use ruby_builtin::{Called, call};
use ruby_builtin_keys::merged;
use ruby_types::{Items, Value, equal};
use std::alloc::{AllocError, Global};
use std::test::Fail;
use std::time::{Duration, Instant};

/// The pairs of so many numbers from a first one on.
fn numbered(alloc: Global, first: u32, count: u32) -> Result<Vec<(Value, Value)>, AllocError> {
    let mut pairs = Vec::new(alloc);
    for step in 0..count {
        let number = i64::from(first) + i64::from(step);
        pairs.push((Value::Int(number), Value::Int(number)))?;
    }
    Ok(pairs)
}

#[test]
fn fifty_thousand_pairs_are_merged_and_compared_at_once(rt: HostRuntime) -> Result<(), Fail> {
    let alloc = rt.alloc();
    let pairs = numbered(alloc, 0, 50_000)?;
    let others = numbered(alloc, 25_000, 50_000)?;
    let start = Instant::now(&rt)?;
    let first = Value::Hash(merged(alloc, pairs.as_slice(), others.as_slice())?);
    let second = Value::Hash(merged(alloc, pairs.as_slice(), others.as_slice())?);
    assert!(rt; equal(&first, &second));
    let taken = start.elapsed(&rt)?;
    assert!(rt; taken < Duration::from_millis(500), "{taken:?}");
    Ok(())
}

#[test]
fn a_hundred_thousand_small_calls_take_a_fifth_of_a_second(rt: HostRuntime) -> Result<(), Fail> {
    let alloc = rt.alloc();
    let one = Items::from_vec(alloc, vec![in alloc; Value::Int(1)]?)?;
    let mut sum = Value::Int(0);
    let start = Instant::now(&rt)?;
    for _ in 0..100_000 {
        if let Called::Value(value, _) = call(alloc, &sum, b"+", &one, 3) {
            sum = value;
        }
    }
    let taken = start.elapsed(&rt)?;
    assert!(rt; equal(&sum, &Value::Int(100_000)));
    assert!(rt; taken < Duration::from_millis(200), "{taken:?}");
    Ok(())
}
