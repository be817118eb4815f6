ghost use Rattle.std.specs.Prelude.{◌≡◌, IfOk};
ghost use Rattle.by_need.specs.Asking.{Gives};
ghost use Rattle.program_application.specs.Applications.{application_of};
ghost use Rattle.program_index.specs.Program.{index_in, nodes_in};
ghost use Rattle.program_requests.specs.Requests.{replying, request_run};
ghost use Rattle.request_actor.specs.Talks.{Reaches};
ghost use Rattle.ruby_machine.specs.Machines.{GoesTo};
ghost use Rattle.ruby_runs.specs.Doing.{Meaning};
ghost use Rattle.generation_runs.specs.Runs.{EndsAs, branch_of, left_of};

use crate::generation::Generation;
use by_need_answer::Answered;
use load_replies::reply_of;
use request_actor::Asked;
use ruby_machine::{Machine, Reached};
use ruby_runs::NoReply;
use ruby_types::{Reply, Request, RubyError, Task, Value, copy_request};
use std::alloc::AllocError;

/// The run of a request on a generation, which goes on or waits for the value of a task.
#[derive(Drop)]
pub struct RequestRun {
    pub generation: Generation,
    pub request: Request,
    pub machine: Machine,
}

/// The reply of a run that ends so. An error where memory runs out.
fn ended(
    run: &RequestRun,
    answered: Answered<Task, Value, RubyError, NoReply>,
) -> Result<Reply, AllocError>
    ensures { IfOk result (λ reply. (before : Meaning) → EndsAs before answered →
        replying (application_of run.now.generation) run.now.request before ≡ Gives reply) }
{
    reply_of(run.machine.alloc, &run.request, answered)
}

/// What is told of a run whose machine came to this. An error where memory runs out.
fn told(run: RequestRun, reached: Reached) -> Result<Asked<Task, Reply, RequestRun>, AllocError>
    ensures { (before : Meaning) →
        GoesTo (index_in run.generation) (nodes_in run.generation) before reached run.machine.stage →
        IfOk result (Reaches branch_of (replying (application_of run.generation) run.request before)) }
{
    match reached {
        Reached::Need(task) => Ok(Asked::Asks(task, run)),
        Reached::Memory => Err(AllocError),
        Reached::Done(value) => Ok(Asked::Replies(ended(&run, Answered::Done(value))?)),
        Reached::Raised(error) => Ok(Asked::Replies(ended(&run, Answered::Raised(error))?)),
        Reached::Without(end) => Ok(Asked::Replies(ended(&run, Answered::Otherwise(end))?)),
    }
}

impl RequestRun {
    /// The whole run of a request.
    pub fn begin(generation: &Generation, request: &Request) -> Result<RequestRun, AllocError>
        ensures { IfOk result (λ run. left_of run ≡ request_run (application_of generation.now) request.now) }
    {
        Ok(RequestRun {
            generation: generation.share(),
            request: copy_request(request)?,
            machine: generation.runner().begin_request(request)?,
        })
    }

    /// Goes on to the reply or to the next task that is asked for. An error where memory runs out.
    pub fn go_on(self) -> Result<Asked<Task, Reply, RequestRun>, AllocError>
        ensures { IfOk result (Reaches branch_of (left_of self)) }
    {
        let RequestRun {
            generation,
            request,
            machine,
        } = self;
        let mut machine = machine;
        let reached = machine.reach(generation.runner().program());
        let run = RequestRun {
            generation,
            request,
            machine,
        };
        told(run, reached)
    }

    /// Takes the branch of the value that the run waits for.
    pub fn supply(self, value: &Value) -> Result<RequestRun, AllocError>
        ensures { IfOk result (λ run. left_of run ≡ branch_of self value.now) }
    {
        let mut run = self;
        run.machine.supply(value)?;
        Ok(run)
    }
}
