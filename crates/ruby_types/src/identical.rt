ghost use Rattle.std.specs.Prelude.{◌≡◌, IsTrue};

use crate::value::{CPath, Items, Pairs, Text, Value};

/// Whether two values are written alike: the same by structure, with the pairs of each hash in one order. It compares
/// each part once, so it takes time by the values' size.
#[cycle(identical)]
pub fn identical(a: &Value, b: &Value) -> bool
    ensures { IsTrue result → a.now ≡ b.now }
{
    match a {
        Value::Nil => matches!(b, Value::Nil),
        Value::True => matches!(b, Value::True),
        Value::False => matches!(b, Value::False),
        Value::Int(m) => match b {
            Value::Int(n) => *m == *n,
            _ => false,
        },
        Value::Str(s) => match b {
            Value::Str(t) => identical_texts(s, t),
            _ => false,
        },
        Value::Sym(s) => match b {
            Value::Sym(t) => identical_texts(s, t),
            _ => false,
        },
        Value::Array(xs) => match b {
            Value::Array(ys) => identical_items(xs, ys),
            _ => false,
        },
        Value::Hash(ps) => match b {
            Value::Hash(qs) => identical_pairs(ps, qs),
            _ => false,
        },
        Value::Module(p) => match b {
            Value::Module(q) => identical_paths(p, q),
            _ => false,
        },
        Value::Object(p, xs) => match b {
            Value::Object(q, ys) => identical_paths(p, q) && identical_pairs(xs, ys),
            _ => false,
        },
    }
}

#[cycle(identical)]
fn identical_items(a: &Items, b: &Items) -> bool
    ensures { IsTrue result → a.now ≡ b.now }
{
    if a.len() != b.len() {
        return false;
    }
    let ys = b.as_slice();
    'items: for (i, x) in a.as_slice().iter().enumerate() {
        if !identical(x, &ys[i]) {
            return false;
        }
    }
    true
}

/// Whether both lists have identical keys and values in one order.
#[cycle(identical)]
pub fn identical_pairs(a: &Pairs, b: &Pairs) -> bool
    ensures { IsTrue result → a.now ≡ b.now }
{
    if a.len() != b.len() {
        return false;
    }
    let ys = b.as_slice();
    'pairs: for (i, x) in a.as_slice().iter().enumerate() {
        if !identical(&x.0, &ys[i].0) || !identical(&x.1, &ys[i].1) {
            return false;
        }
    }
    true
}

fn identical_paths(a: &CPath, b: &CPath) -> bool
    ensures { IsTrue result → a.now ≡ b.now }
{
    if a.len() != b.len() {
        return false;
    }
    let ys = b.as_slice();
    'names: for (i, s) in a.as_slice().iter().enumerate() {
        if !identical_texts(s, &ys[i]) {
            return false;
        }
    }
    true
}

fn identical_texts(a: &Text, b: &Text) -> bool
    ensures { IsTrue result → a.now ≡ b.now }
{
    a.as_bytes() == b.as_bytes()
}
