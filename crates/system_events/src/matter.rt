//! What a system is of: tasks, values, programs, requests and replies. Contracts know what is true of them.
ghost use Rattle.std.specs.Prelude.{◌≡◌, IfOk};
ghost use Rattle.system_events.specs.Facts.{Facts, SameIsEqual, capped};

use std::alloc::{AllocError, Global};

/// What a system is of.
///
/// A program is one generation's: the snapshot of its files and what it says. Tasks are what a program defines, each
/// with a value; a request has one reply on a program. What is true of these stands in `Facts`, for contracts alone, so
/// that nothing of a language is known where events are.
pub trait Matter {
    type Task: Drop;

    type Value: Drop;
    /// A handle that can be shared.
    type Program: Drop;

    type Request: Drop;

    type Reply: Drop;
    /// Why a snapshot gives no program.
    type Fault: Drop;

    // What is true of them.
    ghost facts: { Facts Self.Task Self.Value Self.Program Self.Request Self.Reply Self.Fault };

    /// Whether two tasks are the same.
    fn same_task(a: &Self::Task, b: &Self::Task) -> bool
        ensures { result ≡ facts.same_task a.now b.now };

    /// A number by which tasks are looked up. Tasks of one number only cost time.
    fn hash(task: &Self::Task) -> u64
        ensures { result ≡ facts.hash task.now };

    /// Whether two snapshots have the same files, lengths and times.
    fn same_stamps(a: &Self::Program, b: &Self::Program) -> bool
        ensures { result ≡ facts.same_stamps a.now b.now };

    /// How many bytes the files have that are new or differ from those before.
    fn changed_bytes(before: &Self::Program, after: &Self::Program) -> u64
        ensures { result ≡ capped (facts.changed_bytes before.now after.now) };

    /// How many bytes the body of a reply has.
    fn reply_bytes(reply: &Self::Reply) -> u64
        ensures { result ≡ capped (facts.reply_bytes reply.now) };

    /// The program of the empty snapshot.
    fn empty(alloc: Global) -> Result<Self::Program, AllocError>
        ensures { IfOk result (λ program. program ≡ facts.empty) };

    /// The same program, shared. It takes no memory.
    fn share(program: &Self::Program) -> Self::Program
        ensures { result ≡ program.now };

    // `same_task` is equality.
    ghost same_is_equal: { SameIsEqual facts };
}
