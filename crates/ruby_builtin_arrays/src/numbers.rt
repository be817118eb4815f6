ghost use Rattle.std.specs.Prelude.{◌≡◌, option_map, int_lt};
ghost use Rattle.std.specs.List.{best_of};
ghost use Rattle.ruby_builtin_base.specs.Answers.{OrMemory, Gives, answered};
ghost use Rattle.ruby_builtin_base.specs.Results.{integer};
ghost use Rattle.ruby_builtin_arrays.specs.ArrayRows.{of_numbers, int_or_nil};
ghost use Rattle.ruby_builtin_arrays.specs.Numbers as spec;

use ruby_builtin_base::{Call, Called};
use ruby_types::Value;

/// The sum of the members, where each is a number. It can leave 64 bits, and no part of it leaves 128.
fn total(members: &[Value]) -> Option<i128>
    ensures { result ≡ option_map spec.total (spec.numbers members.now) }
{
    let mut total = 0i128;
    for member in members {
        match member {
            Value::Int(number) => total += i128::from(*number),
            _ => return None,
        }
    }
    Some(total)
}

/// Answers with the sum of the members.
pub fn gives_total(call: &Call, members: &[Value]) -> Called
    ensures { OrMemory result
        (answered call.now (of_numbers integer (option_map spec.total (spec.numbers members.now)))) }
{
    match total(members) {
        Some(total) => call.integer(i64::try_from(total).ok()),
        None => call.wrong_argument(),
    }
}

/// The least of a number and of members that are all numbers.
fn least_from(number: i64, members: &[Value]) -> Option<i64>
    ensures { result ≡ option_map (best_of int_lt number) (spec.numbers members.now) }
{
    let mut best = number;
    for member in members {
        let Value::Int(other) = member else {
            return None;
        };
        if *other < best {
            best = *other;
        }
    }
    Some(best)
}

/// The greatest of a number and of members that are all numbers.
fn greatest_from(number: i64, members: &[Value]) -> Option<i64>
    ensures { result ≡ option_map (best_of (λ m n. int_lt n m) number) (spec.numbers members.now) }
{
    let mut best = number;
    for member in members {
        let Value::Int(other) = member else {
            return None;
        };
        if best < *other {
            best = *other;
        }
    }
    Some(best)
}

/// The least of members that are all numbers.
fn least(members: &[Value]) -> Option<Option<i64>>
    ensures { result ≡ option_map spec.least (spec.numbers members.now) }
{
    match members.split_first() {
        None => Some(None),
        Some((Value::Int(number), others)) => least_from(*number, others).map(Some),
        Some(_) => None,
    }
}

/// The greatest of members that are all numbers.
fn greatest(members: &[Value]) -> Option<Option<i64>>
    ensures { result ≡ option_map spec.greatest (spec.numbers members.now) }
{
    match members.split_first() {
        None => Some(None),
        Some((Value::Int(number), others)) => greatest_from(*number, others).map(Some),
        Some(_) => None,
    }
}

/// Answers with a number, with nil where there is none, or that members weren't numbers.
fn gives_number(call: &Call, number: Option<Option<i64>>) -> Called
    ensures { OrMemory result (answered call.now (of_numbers (λ n. Gives (int_or_nil n)) number)) }
{
    match number {
        Some(Some(number)) => call.gives(Value::Int(number)),
        Some(None) => call.gives(Value::Nil),
        None => call.wrong_argument(),
    }
}

/// Answers with the least member.
pub fn gives_least(call: &Call, members: &[Value]) -> Called
    ensures { OrMemory result (answered call.now
        (of_numbers (λ n. Gives (int_or_nil n)) (option_map spec.least (spec.numbers members.now)))) }
{
    gives_number(call, least(members))
}

/// Answers with the greatest member.
pub fn gives_greatest(call: &Call, members: &[Value]) -> Called
    ensures { OrMemory result (answered call.now
        (of_numbers (λ n. Gives (int_or_nil n)) (option_map spec.greatest (spec.numbers members.now)))) }
{
    gives_number(call, greatest(members))
}
