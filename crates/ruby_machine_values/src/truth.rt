ghost use Rattle.std.specs.Prelude.{◌≡◌};
ghost use Rattle.ruby_runs.specs.Bodies as bodies;
ghost use Rattle.ruby_runs.specs.BuiltIns as built_ins;

use ruby_types::Value;

/// Only nil and false are false.
pub fn is_truthy(value: &Value) -> bool
    ensures { result ≡ built_ins.is_truthy value.now }
{
    match value {
        Value::Nil | Value::False => false,
        _ => true,
    }
}

/// True or false.
pub fn boolean(holds: bool) -> Value
    ensures { result ≡ bodies.boolean holds }
{
    if holds { Value::True } else { Value::False }
}
