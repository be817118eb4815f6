//! The runs of requests.
ghost use Rattle.std.specs.Prelude.{◌≡◌, IfOk};
ghost use Rattle.request_actor.specs.Talks.{Talks, Reaches, AreOf};

use std::alloc::AllocError;
use system_events::Matter;

/// What the run of a request comes to next: its reply, or a question at which it waits.
#[derive(Drop)]
pub enum Asked<T, R, W> {
    Replies(R),
    Asks(T, W),
}

/// A matter whose requests have runs that are suspended at their questions.
pub trait Requests: Matter {
    /// A run that may go on.
    type Run: Drop;
    /// A run that waits for the value of a task.
    type Waiting: Drop;
    /// Why a task stays unknown.
    type Error: Drop;

    // What the runs mean.
    ghost talks: { Talks Self.Task Self.Value Self.Program Self.Request Self.Reply Self.Error Self.Run Self.Waiting };

    fn begin(program: &Self::Program, request: &Self::Request) -> Result<Self::Run, AllocError>
        ensures { IfOk result (λ run. talks.rest run ≡ talks.whole program.now request.now) };

    /// Goes on to the reply or to the next question.
    fn run(
        program: &Self::Program,
        run: Self::Run,
    ) -> Result<Asked<Self::Task, Self::Reply, Self::Waiting>, AllocError>
        ensures { IfOk result (Reaches talks.branch (talks.rest run)) };

    /// Takes the branch of the value that the run waits for.
    fn supply(waiting: Self::Waiting, value: &Self::Value) -> Result<Self::Run, AllocError>
        ensures { IfOk result (λ run. talks.rest run ≡ talks.branch waiting value.now) };

    /// The reply of a request that asked for a task whose load failed.
    fn failed(error: Self::Error) -> Result<Self::Reply, AllocError>
        ensures { IfOk result (λ reply. reply ≡ talks.failed error) };

    fn copy_task(task: &Self::Task) -> Result<Self::Task, AllocError>
        ensures { IfOk result (λ copied. copied ≡ task.now) };

    // A request's reply and what it asks for are what its run comes to over all that is known.
    ghost replies_follow: { AreOf Self.facts talks };
}
