//! Matters whose requests are replayed.
ghost use Rattle.std.specs.Prelude.{◌≡◌, ◌≤◌, ℕ, List, length, IfOk};
ghost use Rattle.system_events.specs.declared.event.Cause.{Cause};
ghost use Rattle.replay_matter.specs.Words.{Words};

use lists::{Listed, Text};
use reload_matter::Reloads;
use request_loads::Loads;
use std::alloc::{AllocError, Global};
use system_events::Cause;

/// A matter whose requests are replayed over files.
pub trait Replays: Loads + Reloads {
    // How what a system does is told, and what targets ask for.
    ghost words: { Words Self.Task Self.Program Self.Request Self.Reply
        (Cause Self Self.Task Self.Value Self.Program Self.Request Self.Reply Self.Fault) };

    fn task_name(alloc: Global, task: &Self::Task) -> Result<Text, AllocError>
        ensures { IfOk result (λ name. name ≡ words.task_name task.now) };

    /// The texts that are logged where a task of the program is defined.
    fn logs(
        alloc: Global,
        program: &Self::Program,
        task: &Self::Task,
    ) -> Result<Listed<Text>, AllocError>
        ensures { IfOk result (λ logs. logs ≡ words.logs program.now task.now) };

    fn status(reply: &Self::Reply) -> u16
        ensures { result ≡ words.status reply.now };

    fn body(reply: &Self::Reply) -> &[u8]
        ensures { result.now ≡ words.body reply.now };

    /// The reply that tells why a request is refused.
    fn refusal(alloc: Global, cause: &Cause<Self>) -> Result<Self::Reply, AllocError>
        ensures { IfOk result (λ reply. reply ≡ words.refusal cause.now) };

    /// The request of a target of at most 2,048 bytes.
    fn request_of(alloc: Global, target: &[u8]) -> Result<Self::Request, AllocError>
        requires { length target.now ≤ 2048 }
        ensures { IfOk result (λ request. request ≡ words.request_of target.now) };

    // The request of a target may begin.
    ghost requests_begin: { (target : List ℕ) → Self.facts.IsRequest (words.request_of target) };
}
