ghost use Rattle.std.specs.Prelude.{◌≡◌, map};
ghost use Rattle.ruby_builtin_keys.specs.Digest as spec;

use ruby_types::{CPath, Value};

/// A number that values which are the same have in common.
#[cycle(digests)]
pub fn digest(value: &Value) -> u64
    ensures { result ≡ spec.digest value.now }
{
    match value {
        Value::Nil => 1,
        Value::True => 2,
        Value::False => 3,
        Value::Int(number) => number.cast_unsigned(),
        Value::Str(text) => mixed_all(4, text.as_bytes()),
        Value::Sym(name) => mixed_all(5, name.as_bytes()),
        Value::Array(items) => mixed_items(6, items.as_slice()),
        Value::Hash(pairs) => mixed(7, pairs.len() as u64),
        Value::Module(path) => mixed_names(8, path),
        Value::Object(class, _) => mixed_names(9, class),
    }
}

#[cycle(digests)]
fn mixed_items(start: u64, items: &[Value]) -> u64
    ensures { result ≡ spec.mixed_all start (map spec.digest items.now) }
{
    let mut so_far = start;
    for item in items {
        so_far = mixed(so_far, digest(item));
    }
    so_far
}

fn mixed_names(start: u64, path: &CPath) -> u64
    ensures { result ≡ spec.mixed_names start path.now }
{
    let mut so_far = start;
    for name in path.as_slice() {
        so_far = mixed_all(so_far, name.as_bytes());
    }
    so_far
}

fn mixed_all(start: u64, bytes: &[u8]) -> u64
    ensures { result ≡ spec.mixed_all start bytes.now }
{
    let mut so_far = start;
    for byte in bytes {
        so_far = mixed(so_far, u64::from(*byte));
    }
    so_far
}

fn mixed(so_far: u64, next: u64) -> u64
    ensures { result ≡ spec.mixed so_far next }
{
    so_far.wrapping_mul(1_099_511_628_211).wrapping_add(next)
}
