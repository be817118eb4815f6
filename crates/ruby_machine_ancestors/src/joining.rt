ghost use Rattle.std.specs.Prelude.{◌≡◌, ◌++◌, ◌∷◌, [], IfOk, List, OnOk, not};
ghost use Rattle.std.specs.List.{list_any};
ghost use Rattle.indexmap.specs.IndexSet.{insert_key};
ghost use Rattle.program_places.specs.Paths.{Path};
ghost use Rattle.ruby_runs.specs.Runs.{from_last, with_path, with_paths};
ghost use Rattle.ruby_machine_ancestors.specs.Ancestors.{joined};
ghost use Rattle.ruby_machine_ancestors.specs.Gathers.{Gathers, key_of, same};

use crate::mentions::CPaths;
use indexmap::IndexSet;
use lists::Copying;
use ruby_types::{CPath, Items, Task, Value};
use std::alloc::{AllocError, Global};
use task_keys::TaskKey;

/// The modules of a list of ancestors, each once, and what they are told apart by.
#[derive(Drop)]
pub struct Gathering {
    pub keys: IndexSet<TaskKey>,
    pub modules: Vec<Value>,
}

fn push(modules: &mut Vec<Value>, next: Value) -> Result<(), AllocError>
    ensures { OnOk result (modules.new.items ≡ modules.old.items ++ next ∷ []) }
{
    modules.push(next)?;
    Ok(())
}

/// Adds the key of a path, unless it is there, and tells whether it is new.
fn insert(keys: &mut IndexSet<TaskKey>, path: &CPath) -> Result<bool, AllocError>
    ensures keys { OnOk result (keys.new.keys ≡ insert_key same keys.old.keys (key_of path.now)) }
    ensures is_new { IfOk result (λ is_new. is_new ≡ not (list_any (same (key_of path.now)) keys.old.keys)) }
{
    let key = TaskKey {
        task: Task::Ancestors(path.copy()?),
    };
    match keys.insert_full(key) {
        Ok((_, is_new)) => Ok(is_new),
        Err(_) => Err(AllocError),
    }
}

impl Gathering {
    /// Adds a module, unless it is there.
    fn add(&mut self, path: &CPath) -> Result<(), AllocError>
        ensures { (paths : List Path) → Gathers self.old paths →
            OnOk result (Gathers self.new (with_path paths path.now)) }
    {
        if !insert(&mut self.keys, path)? {
            return Ok(());
        }
        push(&mut self.modules, Value::Module(path.copy()?))?;
        Ok(())
    }

    /// Adds several modules, each unless it is there.
    fn add_all(&mut self, paths: &[CPath]) -> Result<(), AllocError>
        ensures { (before : List Path) → Gathers self.old before →
            OnOk result (Gathers self.new (with_paths before paths.now)) }
    {
        'paths: for path in paths {
            self.add(path)?;
        }
        Ok(())
    }

    /// Adds several lists, from the last to the first.
    fn add_from_last(&mut self, lists: &[CPaths]) -> Result<(), AllocError>
        ensures { (before : List Path) → Gathers self.old before →
            OnOk result (Gathers self.new (from_last before lists.now)) }
    {
        'lists: for at in (0..lists.len()).rev() {
            self.add_all(lists[at].as_slice())?;
        }
        Ok(())
    }
}

/// The list of ancestors: the class or module itself, the members of the includes from the last to the first, then
/// those of the parent, each without what is already there.
pub fn join(
    alloc: Global,
    path: &CPath,
    parent: &CPaths,
    includes: &[CPaths],
) -> Result<Value, AllocError>
    ensures { IfOk result (λ value. value ≡ joined path.now parent.now includes.now) }
{
    let mut gathering = Gathering {
        keys: IndexSet::new(alloc),
        modules: Vec::new(alloc),
    };
    gathering.add(path)?;
    gathering.add_from_last(includes)?;
    gathering.add_all(parent.as_slice())?;
    Ok(Value::Array(Items::from_vec(alloc, gathering.modules)?))
}
