ghost use Rattle.std.specs.Prelude.{◌≡◌, ◌-◌, ◌^◌, min, map};
ghost use Rattle.std.specs.List.{sum};
ghost use Rattle.ruby_types.specs.Size as sizes;
ghost use Rattle.ruby_types.specs.declared.value.Value.TheVariants.{Array};
ghost use Rattle.ruby_builtin_base.specs.Answers.{OrMemory, Gives, answered};

use ruby_builtin_base::{Call, Called};
use ruby_types::{Items, Value, copy, size};

/// The sizes of these members together, or 2^64 - 1 where they are more.
pub fn members_size(members: &[Value]) -> u64
    ensures { result ≡ min (sum (map sizes.size members.now)) (2 ^ 64 - 1) }
{
    let mut total = 0u64;
    for member in members {
        total = total.saturating_add(size(member));
    }
    total
}

/// Answers with a value that stands elsewhere, whose content is shared.
pub fn gives_copy(call: &Call, value: &Value) -> Called
    ensures { OrMemory result (answered call.now (Gives value.now)) }
{
    match call.pays(size(value)) {
        Err(spent) => spent,
        Ok(paid) => match copy(value) {
            Ok(copied) => Called::Value(copied, paid),
            Err(_) => Called::Memory,
        },
    }
}

/// Answers with an array of these members, whose contents are shared.
pub fn gives_members(call: &Call, members: &[Value]) -> Called
    ensures { OrMemory result (answered call.now (Gives (Array members.now))) }
{
    match call.pays(members_size(members).saturating_add(16)) {
        Err(spent) => spent,
        Ok(paid) => match Items::from_slice(call.alloc, members) {
            Ok(items) => Called::Value(Value::Array(items), paid),
            Err(_) => Called::Memory,
        },
    }
}
