ghost use Rattle.std.specs.Prelude.{◌≡◌};
ghost use Rattle.task_identity.specs.Hashes as spec;

use ruby_types::Task;
use std::hash::{DefaultHasher, Hash, Hasher};
use task_keys::TaskRef;

/// A number by which a task is looked up, from its kind and its path. Requests have one number.
pub fn task_hash(task: &Task) -> u64
    ensures { result ≡ spec.task_hash task.now }
{
    let mut hasher = DefaultHasher::new();
    TaskRef { task }.hash(&mut hasher);
    hasher.finish()
}
