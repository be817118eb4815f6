ghost use Rattle.std.specs.Prelude.{◌≡◌, IsTrue, bytes_eq};
ghost use Rattle.std.specs.Cmp.Lexicographic.{pointwise};
ghost use Rattle.task_keys.specs.Same.{same_task};

use ruby_types::{CPath, Items, Pairs, Request, Task, Text, Value};

/// Whether two values are written alike: the same by structure, with the pairs of each hash in one order. It compares
/// each part once, so it takes time by the values' size.
#[cycle(identical)]
fn identical(a: &Value, b: &Value) -> bool
    ensures equal { IsTrue result → a.now ≡ b.now }
    ensures told { a.now ≡ b.now → IsTrue result }
{
    match a {
        Value::Nil => matches!(b, Value::Nil),
        Value::True => matches!(b, Value::True),
        Value::False => matches!(b, Value::False),
        Value::Int(m) => match b {
            Value::Int(n) => *m == *n,
            _ => false,
        },
        Value::Str(s) => match b {
            Value::Str(t) => identical_texts(s, t),
            _ => false,
        },
        Value::Sym(s) => match b {
            Value::Sym(t) => identical_texts(s, t),
            _ => false,
        },
        Value::Array(xs) => match b {
            Value::Array(ys) => identical_items(xs, ys),
            _ => false,
        },
        Value::Hash(ps) => match b {
            Value::Hash(qs) => identical_pairs(ps, qs),
            _ => false,
        },
        Value::Module(p) => match b {
            Value::Module(q) => identical_names(p.as_slice(), q.as_slice()),
            _ => false,
        },
        Value::Object(p, xs) => match b {
            Value::Object(q, ys) => identical_names(p.as_slice(), q.as_slice())
                && identical_pairs(xs, ys),
            _ => false,
        },
    }
}

#[cycle(identical)]
fn identical_items(a: &Items, b: &Items) -> bool
    ensures equal { IsTrue result → a.now ≡ b.now }
    ensures told { a.now ≡ b.now → IsTrue result }
{
    if a.len() != b.len() {
        return false;
    }
    let ys = b.as_slice();
    'items: for (i, x) in a.as_slice().iter().enumerate() {
        if !identical(x, &ys[i]) {
            return false;
        }
    }
    true
}

/// Whether both lists have identical keys and values in one order.
#[cycle(identical)]
fn identical_pairs(a: &Pairs, b: &Pairs) -> bool
    ensures equal { IsTrue result → a.now ≡ b.now }
    ensures told { a.now ≡ b.now → IsTrue result }
{
    if a.len() != b.len() {
        return false;
    }
    let ys = b.as_slice();
    'pairs: for (i, x) in a.as_slice().iter().enumerate() {
        if !identical(&x.0, &ys[i].0) || !identical(&x.1, &ys[i].1) {
            return false;
        }
    }
    true
}

/// Whether two lists have the same names in one order.
#[tactic(auto, using(crate::proofs::SameLaws::alike_are_equal, crate::proofs::SameLaws::equal_are_alike))]
fn identical_names(a: &[Text], b: &[Text]) -> bool
    ensures equal { IsTrue result → a.now ≡ b.now }
    ensures told { a.now ≡ b.now → IsTrue result }
{
    are_alike(a, b)
}

fn are_alike(a: &[Text], b: &[Text]) -> bool
    ensures { result ≡ pointwise bytes_eq a.now b.now }
{
    let mut left = a;
    let mut right = b;
    'names: while let [name, behind @ ..] = left {
        let [other, after @ ..] = right else {
            return false;
        };
        if name.as_bytes() != other.as_bytes() {
            return false;
        }
        left = behind;
        right = after;
    }
    right.is_empty()
}

fn identical_texts(a: &Text, b: &Text) -> bool
    ensures equal { IsTrue result → a.now ≡ b.now }
    ensures told { a.now ≡ b.now → IsTrue result }
{
    a.as_bytes() == b.as_bytes()
}

fn identical_requests(a: &Request, b: &Request) -> bool
    ensures equal { IsTrue result → a.now ≡ b.now }
    ensures told { a.now ≡ b.now → IsTrue result }
{
    identical_names(a.controller.as_slice(), b.controller.as_slice())
        && identical_texts(&a.action, &b.action)
        && identical_pairs(&a.params, &b.params)
}

fn identical_tasks(a: &Task, b: &Task) -> bool
    ensures equal { IsTrue result → a.now ≡ b.now }
    ensures told { a.now ≡ b.now → IsTrue result }
{
    match a {
        Task::File(path) => match b {
            Task::File(other) => identical_texts(path, other),
            _ => false,
        },
        Task::Const(path) => match b {
            Task::Const(other) => identical_names(path.as_slice(), other.as_slice()),
            _ => false,
        },
        Task::Ancestors(path) => match b {
            Task::Ancestors(other) => identical_names(path.as_slice(), other.as_slice()),
            _ => false,
        },
        Task::Request(request) => match b {
            Task::Request(other) => identical_requests(request, other),
            _ => false,
        },
    }
}

/// Whether two tasks are the same. It takes no memory, and time by their sizes.
pub fn same_task(a: &Task, b: &Task) -> bool
    ensures { result ≡ same_task a.now b.now }
{
    identical_tasks(a, b)
}
