ghost use Rattle.std.specs.Prelude.{◌≡◌, ◌<◌, ◌+◌, map, MatchOption};
ghost use Rattle.std.specs.List.{sum};
ghost use Rattle.ruby_types.specs.Size as spec;

use ruby_types::{Value, path_size};

fn without(left: u64, cost: u64) -> Option<u64>
    ensures { MatchOption result (left < cost) (λ rest. left ≡ cost + rest) }
{
    left.checked_sub(cost)
}

/// What is left of a number behind the size of a value; none where the value is larger. It looks at no more of the
/// value than fits: members that are shared count wherever they stand, so that a value can be far larger than what it
/// was made of.
#[cycle(sizes)]
pub fn without_size(left: u64, value: &Value) -> Option<u64>
    ensures { MatchOption result (left < spec.size value.now) (λ rest. left ≡ spec.size value.now + rest) }
{
    let rest = without(left, 16)?;
    match value {
        Value::Nil | Value::True | Value::False | Value::Int(_) => Some(rest),
        Value::Str(text) => without(rest, text.len() as u64),
        Value::Sym(name) => without(rest, name.len() as u64),
        Value::Array(items) => without_items(rest, items.as_slice()),
        Value::Hash(pairs) => without_pairs(rest, pairs.as_slice()),
        Value::Module(path) => without(rest, path_size(path)),
        Value::Object(class, variables) => {
            let rest = without(rest, path_size(class))?;
            without_pairs(rest, variables.as_slice())
        }
    }
}

#[cycle(sizes)]
fn without_items(left: u64, items: &[Value]) -> Option<u64>
    ensures { MatchOption result (left < sum (map spec.size items.now))
        (λ rest. left ≡ sum (map spec.size items.now) + rest) }
{
    let mut rest = left;
    for item in items {
        match without_size(rest, item) {
            Some(less) => rest = less,
            None => return None,
        }
    }
    Some(rest)
}

#[cycle(sizes)]
fn without_pairs(left: u64, pairs: &[(Value, Value)]) -> Option<u64>
    ensures { MatchOption result (left < sum (map spec.pair_size pairs.now))
        (λ rest. left ≡ sum (map spec.pair_size pairs.now) + rest) }
{
    let mut rest = left;
    for (key, value) in pairs {
        match without_size(rest, key) {
            Some(less) => rest = less,
            None => return None,
        }
        match without_size(rest, value) {
            Some(less) => rest = less,
            None => return None,
        }
    }
    Some(rest)
}
