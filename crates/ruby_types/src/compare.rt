ghost use Rattle.std.specs.Prelude.{◌≡◌, ◌&&◌, nat_eq, count_by, length, IsTrue};
ghost use Rattle.std.specs.Ordering.{int_eq};
ghost use Rattle.std.specs.Str.{bytes_eq};
ghost use Rattle.ruby_types.specs.Same.{same, same_both, same_each, same_counts};

use crate::identical::identical_pairs;
use crate::pairing::without_partner;
use crate::value::{CPath, Items, Pairs, Value};

/// Hashes of more pairs are read in order and by a table before their pairs are counted. Smaller ones aren't, so that
/// hashes that are nested deep aren't read again at each level.
const FEW_PAIRS: usize = 256;

/// Hashes of more pairs are counted where their orders differ, since the table has no room for them.
const MANY_PAIRS: usize = 65_535;

/// The same value by structure, where a Hash has the same pairs, each as often, in any order. It takes no memory.
#[cycle(equal)]
#[tactic(auto, using(crate::proofs::SameLaws::same_is))]
pub fn equal(a: &Value, b: &Value) -> bool
    ensures { result ≡ same a.now b.now }
{
    match a {
        Value::Nil => matches!(b, Value::Nil),
        Value::True => matches!(b, Value::True),
        Value::False => matches!(b, Value::False),
        Value::Int(m) => match b {
            Value::Int(n) => equal_ints(m, n),
            _ => false,
        },
        Value::Str(s) => match b {
            Value::Str(t) => s.as_bytes() == t.as_bytes(),
            _ => false,
        },
        Value::Sym(s) => match b {
            Value::Sym(t) => s.as_bytes() == t.as_bytes(),
            _ => false,
        },
        Value::Array(xs) => match b {
            Value::Array(ys) => equal_items(xs, ys),
            _ => false,
        },
        Value::Hash(ps) => match b {
            Value::Hash(qs) => equal_hashes(ps, qs),
            _ => false,
        },
        Value::Module(p) => match b {
            Value::Module(q) => equal_paths(p, q),
            _ => false,
        },
        Value::Object(p, xs) => match b {
            Value::Object(q, ys) => equal_paths(p, q) && equal_pairs(xs, ys),
            _ => false,
        },
    }
}

#[cycle(equal)]
fn equal_items(a: &Items, b: &Items) -> bool
    ensures { result ≡ same_each same a.now b.now }
{
    if a.len() != b.len() {
        return false;
    }
    let ys = b.as_slice();
    'items: for (i, x) in a.as_slice().iter().enumerate() {
        if !equal(x, &ys[i]) {
            return false;
        }
    }
    true
}

#[cycle(equal)]
fn equal_pairs(a: &Pairs, b: &Pairs) -> bool
    ensures { result ≡ same_each same_both a.now b.now }
{
    if a.len() != b.len() {
        return false;
    }
    let ys = b.as_slice();
    'pairs: for (i, x) in a.as_slice().iter().enumerate() {
        if !equal_both(x, &ys[i]) {
            return false;
        }
    }
    true
}

#[cycle(equal)]
fn equal_both(p: &(Value, Value), q: &(Value, Value)) -> bool
    ensures { result ≡ same_both p.now q.now }
{
    equal(&p.0, &q.0) && equal(&p.1, &q.1)
}

#[cycle(equal)]
fn count(p: &(Value, Value), pairs: &Pairs) -> usize
    ensures { result ≡ count_by (same_both p.now) pairs.now }
{
    let mut n = 0;
    'count: for q in pairs.as_slice() {
        if equal_both(p, q) {
            n += 1;
        }
    }
    n
}

#[cycle(equal)]
fn equal_hashes(a: &Pairs, b: &Pairs) -> bool
    ensures { result ≡ (nat_eq (length a.now) (length b.now) && same_counts same_both a.now a.now b.now) }
{
    if a.len() != b.len() {
        return false;
    }
    if a.len() > FEW_PAIRS {
        equal_large(a, b)
    } else {
        equal_counts(a, b)
    }
}

/// Looks for the same pairs in one order, and then for a partner of each pair. All pairs are counted only where a pair
/// has no partner though it stands in both as often.
#[cycle(equal)]
fn equal_large(a: &Pairs, b: &Pairs) -> bool
    requires { length a.now ≡ length b.now }
    ensures { result ≡ same_counts same_both a.now a.now b.now }
{
    if identical_pairs(a, b) {
        return true;
    }
    match without_partner::<MANY_PAIRS>(a.as_slice(), b.as_slice()) {
        None => true,
        Some(place) => {
            let p = &a.as_slice()[place];
            count(p, a) == count(p, b) && equal_counts(a, b)
        }
    }
}

#[cycle(equal)]
fn equal_counts(a: &Pairs, b: &Pairs) -> bool
    ensures { result ≡ same_counts same_both a.now a.now b.now }
{
    'counts: for p in a.as_slice() {
        if count(p, a) != count(p, b) {
            return false;
        }
    }
    true
}

fn equal_paths(a: &CPath, b: &CPath) -> bool
    ensures { result ≡ same_each bytes_eq a.now b.now }
{
    if a.len() != b.len() {
        return false;
    }
    let ys = b.as_slice();
    'names: for (i, s) in a.as_slice().iter().enumerate() {
        if s.as_bytes() != ys[i].as_bytes() {
            return false;
        }
    }
    true
}

fn equal_ints(m: &i64, n: &i64) -> bool
    ensures { result ≡ int_eq m.now n.now }
{
    *m == *n
}

#[cfg(test)]
mod tests {
    use super::equal;
    use crate::value::{Pairs, Value};
    use std::alloc::{AllocError, Global};
    use std::test::Fail;
    use std::time::{Duration, Instant};

    const COUNT: u32 = 50_000;

    /// The pairs of the numbers below `COUNT`, each of which stands where its product with a step stands modulo it.
    fn numbered(alloc: Global, step: u64) -> Result<Vec<(Value, Value)>, AllocError> {
        let mut pairs = Vec::new(alloc);
        for place in 0..COUNT {
            let number = (u64::from(place).wrapping_mul(step) % u64::from(COUNT)) as i64;
            pairs.push((Value::Int(number), Value::Int(number)))?;
        }
        Ok(pairs)
    }

    fn hash(alloc: Global, pairs: Vec<(Value, Value)>) -> Result<Value, AllocError> {
        Ok(Value::Hash(Pairs::from_vec(alloc, pairs)?))
    }

    #[test]
    fn hashes_of_fifty_thousand_pairs_in_any_order_are_compared_at_once(
        rt: HostRuntime,
    ) -> Result<(), Fail> {
        let alloc = rt.alloc();
        let first = hash(alloc, numbered(alloc, 1)?)?;
        let alike = hash(alloc, numbered(alloc, 1)?)?;
        let reversed = hash(alloc, numbered(alloc, 49_999)?)?;
        let mixed = hash(alloc, numbered(alloc, 7_919)?)?;
        let mut pairs = numbered(alloc, 7_919)?;
        pairs.pop();
        pairs.push((Value::Int(-1), Value::Nil))?;
        let other = hash(alloc, pairs)?;
        let start = Instant::now(&rt)?;
        assert!(rt; equal(&first, &alike));
        assert!(rt; equal(&first, &reversed));
        assert!(rt; equal(&first, &mixed));
        assert!(rt; !equal(&first, &other));
        let taken = start.elapsed(&rt)?;
        assert!(rt; taken < Duration::from_secs(1), "{taken:?}");
        Ok(())
    }
}
