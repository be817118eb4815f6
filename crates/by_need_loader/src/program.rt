//! What a loader needs of the runs of tasks.
ghost use Rattle.std.specs.Prelude.{◌≡◌, true, IfOk, Option};
ghost use Rattle.by_need.specs.Asking.{over};
ghost use Rattle.by_need.specs.Rounds.{is_task};
ghost use Rattle.by_need_loader.specs.Runs.{Runs, Reaches};

use by_need::Theory;
use std::alloc::AllocError;
use std::hash::Hash;

/// What a run comes to next: its end, or a question at which it waits.
#[derive(Drop)]
pub enum Next<T, V, E, O, W> {
    Done(V),
    Raised(E),
    Asks(T, W),
    /// An end without a value or an error.
    Otherwise(O),
}

/// Tasks whose runs are suspended at their questions.
pub trait Program: Theory {
    /// A run that may go on.
    type Running: Drop;
    /// A run that waits for the value of a task.
    type Waiting: Drop;
    /// What a task is found by among the open ones.
    type Key: Eq + Hash + Drop;

    /// What the runs mean, and the key of each task.
    ghost runs: { Self → Runs Self.Task Self.Value Self.Error Self.Other Self.Running Self.Waiting Self.Key };

    /// Whether the first task is at most the second, where both are tasks of the program.
    fn at_most(&self, a: &Self::Task, b: &Self::Task) -> bool
        ensures { let r = Self.rules self.now in is_task r a.now ≡ true → is_task r b.now ≡ true →
            result ≡ r.at_most a.now b.now };

    fn copy_task(task: &Self::Task) -> Result<Self::Task, AllocError>
        ensures { IfOk result (λ copied. copied ≡ task.now) };

    fn key_of(&self, task: &Self::Task) -> Result<Self::Key, AllocError>
        ensures { IfOk result (λ key. key ≡ (runs self.now).key task.now) };

    fn begin(&self, task: &Self::Task) -> Result<Self::Running, AllocError>
        ensures { IfOk result (λ running. is_task (Self.rules self.now) task.now ≡ true →
            (runs self.now).rest running ≡ (runs self.now).whole task.now) };

    /// Goes on to the end or to the next question.
    fn run(
        &self,
        running: Self::Running,
    ) -> Result<Next<Self::Task, Self::Value, Self::Error, Self::Other, Self::Waiting>, AllocError>
        ensures { IfOk result (Reaches (runs self.now).branch ((runs self.now).rest running)) };

    /// Takes the branch of the value that the run waits for, whichever program the run is of.
    fn supply(waiting: Self::Waiting, value: &Self::Value) -> Result<Self::Running, AllocError>
        ensures { IfOk result (λ running. (s : Self) → (runs s).rest running ≡ (runs s).branch waiting value.now) };

    /// A run over what is known follows the tree of its task.
    ghost follows: { (s : Self) (t : Self.Task) (K : Self.Task → Option Self.Value) →
        (Self.rules s).run t K ≡ over K ((runs s).whole t) };

    /// Keys tell tasks of the program apart.
    ghost tells_apart: { (s : Self) (a b : Self.Task) → is_task (Self.rules s) a ≡ true →
        is_task (Self.rules s) b ≡ true → Self.Key.eq ((runs s).key a) ((runs s).key b) ≡ (Self.rules s).same a b };
}
