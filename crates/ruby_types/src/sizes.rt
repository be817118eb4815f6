ghost use Rattle.std.specs.Prelude.{◌≡◌, ◌-◌, ◌^◌, min, map};
ghost use Rattle.std.specs.List.{sum};
ghost use Rattle.ruby_types.specs.Size as spec;

use crate::value::{CPath, Text, Value};

/// The size of a value, or 2^64 - 1 where it is greater: 16, and the bytes of a text or of a printed path, and the
/// sizes of what is inside.
#[cycle(sizes)]
pub fn size(value: &Value) -> u64
    ensures { result ≡ min (spec.size value.now) (2 ^ 64 - 1) }
{
    match value {
        Value::Nil | Value::True | Value::False | Value::Int(_) => 16,
        Value::Str(text) => (text.len() as u64).saturating_add(16),
        Value::Sym(name) => (name.len() as u64).saturating_add(16),
        Value::Array(items) => items_size(items.as_slice()).saturating_add(16),
        Value::Hash(pairs) => pairs_size(pairs.as_slice()).saturating_add(16),
        Value::Module(path) => path_size(path).saturating_add(16),
        Value::Object(class, variables) => path_size(class)
            .saturating_add(pairs_size(variables.as_slice()))
            .saturating_add(16),
    }
}

#[cycle(sizes)]
fn items_size(items: &[Value]) -> u64
    ensures { result ≡ min (sum (map spec.size items.now)) (2 ^ 64 - 1) }
{
    let mut total = 0u64;
    for item in items {
        total = total.saturating_add(size(item));
    }
    total
}

#[cycle(sizes)]
fn pairs_size(pairs: &[(Value, Value)]) -> u64
    ensures { result ≡ min (sum (map spec.pair_size pairs.now)) (2 ^ 64 - 1) }
{
    let mut total = 0u64;
    for (key, value) in pairs {
        total = total.saturating_add(size(key)).saturating_add(size(value));
    }
    total
}

/// The bytes of a printed constant path, its names with `::` between them, or 2^64 - 1 where they are more.
#[tactic(auto, using(crate::proofs::SizeLaws::path_size_of_names))]
pub fn path_size(path: &CPath) -> u64
    ensures { result ≡ min (spec.path_size path.now) (2 ^ 64 - 1) }
{
    match path.as_slice().split_first() {
        None => 0,
        Some((outermost, names)) => inner_size(names).saturating_add(outermost.len() as u64),
    }
}

/// The bytes of the names behind the outermost, each with the `::` before it.
fn inner_size(names: &[Text]) -> u64
    ensures { result ≡ min (sum (map spec.inner_size names.now)) (2 ^ 64 - 1) }
{
    let mut total = 0u64;
    for name in names {
        total = total.saturating_add(2).saturating_add(name.len() as u64);
    }
    total
}

#[cfg(test)]
mod tests {
    use super::size;
    use crate::compare::equal;
    use crate::copies::copy;
    use crate::value::{CPath, Items, Pairs, Text, Value};
    use lists::Copying;
    use std::alloc::{AllocError, Global};
    use std::test::Fail;
    use std::thread;

    fn nested(alloc: Global, levels: u32) -> Result<Value, AllocError> {
        let mut value = Value::Nil;
        for _ in 0..levels {
            value = Value::Array(Items::from_vec(alloc, vec![in alloc; value]?)?);
        }
        Ok(value)
    }

    /// The size of a value that is nested so deep, and whether it is the same as one that is made alike. Both are
    /// dropped here.
    fn size_of_nested(alloc: Global, levels: u32) -> Option<(u64, bool)> {
        let value = nested(alloc, levels).ok()?;
        let copied = copy(&value).ok()?;
        let alike = nested(alloc, levels).ok()?;
        Some((size(&copied), equal(&value, &alike)))
    }

    #[test]
    fn a_value_of_ninety_thousand_levels_is_measured_copied_compared_and_dropped(
        rt: HostRuntime,
    ) -> Result<(), Fail> {
        let alloc = rt.alloc();
        let deep = thread::Builder::new().stack_size(1 << 30);
        let measured = deep
            .spawn(&rt, move || size_of_nested(alloc, 90_000))?
            .join(&rt);
        assert_eq!(rt; measured, Some((1_440_016, true)));
        Ok(())
    }

    fn text(alloc: Global, bytes: &[u8]) -> Result<Value, AllocError> {
        Ok(Value::Str(Text::from_bytes(alloc, bytes)?))
    }

    fn name(alloc: Global, bytes: &[u8]) -> Result<Value, AllocError> {
        Ok(Value::Sym(Text::from_bytes(alloc, bytes)?))
    }

    fn one_pair(alloc: Global, key: Value, value: Value) -> Result<Pairs, AllocError> {
        let mut pairs = Pairs::new(alloc);
        pairs.push((key, value))?;
        Ok(pairs)
    }

    /// The path `A::B`.
    fn inner_path(alloc: Global) -> Result<CPath, AllocError> {
        let mut path = CPath::new(alloc);
        path.push(Text::from_bytes(alloc, b"A")?)?;
        path.push(Text::from_bytes(alloc, b"B")?)?;
        Ok(path)
    }

    #[test]
    fn a_hash_has_the_sizes_of_its_pairs(rt: HostRuntime) -> Result<(), Fail> {
        let alloc = rt.alloc();
        let hash = Value::Hash(one_pair(alloc, name(alloc, b"a")?, text(alloc, b"bc")?)?);
        assert_eq!(rt; size(&hash), 51);
        assert_eq!(rt; size(&copy(&hash)?), 51);
        Ok(())
    }

    #[test]
    fn a_path_counts_with_its_separators(rt: HostRuntime) -> Result<(), Fail> {
        let alloc = rt.alloc();
        let module = Value::Module(inner_path(alloc)?);
        assert_eq!(rt; size(&module), 20);
        let variables = one_pair(alloc, name(alloc, b"@x")?, Value::Int(1))?;
        let object = Value::Object(inner_path(alloc)?, variables);
        assert_eq!(rt; size(&object), 54);
        assert_eq!(rt; size(&Value::True), 16);
        Ok(())
    }
}
