//! What tasks are found by in a table.
ghost use Rattle.std.specs.Prelude.{◌≡◌, fold, bytes_eq};
ghost use Rattle.std.specs.Cmp.{on_equiv, partial_equiv_from_equiv};
ghost use Rattle.std.specs.Cmp.Lexicographic.{pointwise};
ghost use Rattle.task_keys.specs.Keys.{key_equivalence, key_writes, same_key, writes_respect_keys};
ghost use Rattle.task_keys.specs.Names.{task_rank};

use indexmap::Equivalent;
use ruby_types::{Task, Text};
use std::hash::{Hash, Hasher};

fn same_names(a: &[Text], b: &[Text]) -> bool
    ensures { result ≡ pointwise bytes_eq a.now b.now }
{
    let mut left = a;
    let mut right = b;
    'names: while let [name, behind @ ..] = left {
        let [other, after @ ..] = right else {
            return false;
        };
        if name.as_bytes() != other.as_bytes() {
            return false;
        }
        left = behind;
        right = after;
    }
    right.is_empty()
}

/// Whether two tasks are of one kind and path.
fn same_key(a: &Task, b: &Task) -> bool
    ensures { result ≡ same_key a.now b.now }
{
    match a {
        Task::File(file) => match b {
            Task::File(other) => file.as_bytes() == other.as_bytes(),
            _ => false,
        },
        Task::Const(path) => match b {
            Task::Const(other) => same_names(path.as_slice(), other.as_slice()),
            _ => false,
        },
        Task::Ancestors(path) => match b {
            Task::Ancestors(other) => same_names(path.as_slice(), other.as_slice()),
            _ => false,
        },
        Task::Request(_) => matches!(b, Task::Request(_)),
    }
}

/// The kind of a task.
pub(crate) fn rank(task: &Task) -> u8
    ensures { result ≡ task_rank task.now }
{
    match task {
        Task::File(_) => 0,
        Task::Const(_) => 1,
        Task::Ancestors(_) => 2,
        Task::Request(_) => 3,
    }
}

fn write_names<H: Hasher>(names: &[Text], state: &mut H)
    ensures { state.new ≡ fold H.write state.old names.now }
{
    let mut left = names;
    'names: while let [name, behind @ ..] = left {
        state.write(name.as_bytes());
        left = behind;
    }
}

fn write_key<H: Hasher>(task: &Task, state: &mut H)
    ensures { state.new ≡ fold H.write state.old (key_writes task.now) }
{
    state.write(&[rank(task)]);
    match task {
        Task::File(file) => state.write(file.as_bytes()),
        Task::Const(path) => write_names(path.as_slice(), state),
        Task::Ancestors(path) => write_names(path.as_slice(), state),
        Task::Request(_) => {}
    }
}

/// A task as a key: tasks of one kind and path are equal. (So all requests are, which no table has.)
#[derive(Drop)]
pub struct TaskKey {
    pub task: Task,
}

impl PartialEq for TaskKey {
    ghost use Rattle.task_keys.specs.declared.key.TaskKey.{TaskKey};

    ghost eq = { λ a b. same_key a.task b.task };

    ghost laws = { partial_equiv_from_equiv (on_equiv (λ (key : TaskKey). key.task) key_equivalence) };

    fn eq(&self, other: &Self) -> bool {
        same_key(&self.task, &other.task)
    }
}

impl Eq for TaskKey {
    ghost use Rattle.task_keys.specs.declared.key.TaskKey.{TaskKey};

    ghost laws = { on_equiv (λ (key : TaskKey). key.task) key_equivalence };
}

impl Hash for TaskKey {
    ghost hash_input = { λ key. key_writes key.task };

    ghost respects_eq = { λ a b. writes_respect_keys a.task b.task };

    fn hash<H: Hasher>(&self, state: &mut H) {
        write_key(&self.task, state);
    }
}

/// A task that is looked up, without a copy.
#[derive(Clone, Copy)]
pub struct TaskRef<'a> {
    pub task: &'a Task,
}

impl<'a> PartialEq for TaskRef<'a> {
    ghost use Rattle.task_keys.specs.declared.key.TaskRef.{TaskRef};

    ghost eq = { λ a b. same_key a.task.now b.task.now };

    ghost laws = { partial_equiv_from_equiv (on_equiv (λ (key : TaskRef). key.task.now) key_equivalence) };

    fn eq(&self, other: &Self) -> bool {
        same_key(self.task, other.task)
    }
}

impl<'a> Eq for TaskRef<'a> {
    ghost use Rattle.task_keys.specs.declared.key.TaskRef.{TaskRef};

    ghost laws = { on_equiv (λ (key : TaskRef). key.task.now) key_equivalence };
}

impl<'a> Hash for TaskRef<'a> {
    ghost hash_input = { λ key. key_writes key.task.now };

    ghost respects_eq = { λ a b. writes_respect_keys a.task.now b.task.now };

    fn hash<H: Hasher>(&self, state: &mut H) {
        write_key(self.task, state);
    }
}

impl<'a> Equivalent<TaskKey> for TaskRef<'a> {
    ghost equivalent = { λ query key. same_key query.task.now key.task };

    ghost respects_hash = { λ query key. writes_respect_keys query.task.now key.task };

    ghost respects_eq = { λ query x y same. key_equivalence.congr query.task.now x.task y.task same };

    fn equivalent(&self, key: &TaskKey) -> bool {
        same_key(self.task, &key.task)
    }
}
