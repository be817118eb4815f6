ghost use Rattle.ruby_types.specs.declared.value.Value.TheVariants.{Hash};
ghost use Rattle.ruby_builtin_base.specs.Answers.{OrMemory, Gives, answered};
ghost use Rattle.ruby_builtin_keys.specs.Merging as spec;

use ruby_builtin_base::{Call, Called};
use ruby_builtin_keys::merged;
use ruby_types::Value;

/// Answers with the pairs of a hash and those of another put among them. Nothing is made unless enough turns are left
/// for both hashes, which weigh no less than the result.
pub fn gives_merged(call: &Call, pairs: &[(Value, Value)], others: &[(Value, Value)]) -> Called
    ensures { OrMemory result (answered call.now (Gives (Hash (spec.merged pairs.now others.now)))) }
{
    match call.pays(0) {
        Err(spent) => spent,
        Ok(_) => match merged(call.alloc, pairs, others) {
            Ok(all) => call.gives(Value::Hash(all)),
            Err(_) => Called::Memory,
        },
    }
}
