//! The order of tasks.
ghost use Rattle.std.specs.Prelude.{◌≡◌};
ghost use Rattle.task_keys.specs.Names as spec;
ghost use Rattle.task_keys.specs.Names.{task_path};
ghost use Rattle.tree_scan_sites.specs.Paths.{path_order};

use crate::key::rank;
use crate::name::compare_task_names;
use ruby_types::Task;
use std::cmp::Ordering;
use tree_scan_sites::compare_paths;

/// The order of the paths of two tasks of one kind.
fn compare_task_paths(a: &Task, b: &Task) -> Ordering
    ensures { spec.task_rank a.now ≡ spec.task_rank b.now → result ≡ path_order (task_path a.now) (task_path b.now) }
{
    match a {
        Task::Const(path) => match b {
            Task::Const(other) => compare_paths(path.as_slice(), other.as_slice()),
            _ => Ordering::Equal,
        },
        Task::Ancestors(path) => match b {
            Task::Ancestors(other) => compare_paths(path.as_slice(), other.as_slice()),
            _ => Ordering::Equal,
        },
        Task::File(file) => match b {
            Task::File(other) => file.as_bytes().cmp(other.as_bytes()),
            _ => Ordering::Equal,
        },
        Task::Request(_) => Ordering::Equal,
    }
}

/// Whether the first task is at most the second: by name, then by kind, then by path. It takes no memory.
pub fn at_most(a: &Task, b: &Task) -> bool
    ensures { result ≡ spec.at_most a.now b.now }
{
    let names = compare_task_names(a, b);
    if names.is_ne() {
        return names.is_le();
    }
    let (first, second) = (rank(a), rank(b));
    if first != second {
        return first < second;
    }
    compare_task_paths(a, b).is_le()
}
