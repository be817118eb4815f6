//! The order of the operations of one request.
ghost use Rattle.std.specs.Prelude.{◌≡◌, ◌↔◌, IfOk, IsTrue, option_map};
ghost use Rattle.request_actor.specs.Order.{Goes, Fits, FitsCheck, AfterCheck, AfterRelease, GoesOn, Runs, AfterLook};
ghost use Rattle.request_actor.specs.Order.{AfterLoad, after_reload, request_at_stage};
ghost use Rattle.request_actor.specs.Answers.{KeepsRight};

use crate::fitting::{
    is_done, is_of_check, is_of_load, is_of_look, is_of_release, is_of_reload, is_start,
};
use crate::op::{Answered, Op};
use crate::requests::{Asked, Requests};
use std::alloc::AllocError;
use std::marker::Model;
use std::mem;
use system_events::{Cause, Want};

/// What comes after an unload section.
#[derive(Drop)]
pub enum After<Q, C> {
    Begins(Q),
    Refuses(C),
}

/// Which answer is awaited.
#[derive(Drop)]
pub enum Stage<Q, T, W, C> {
    /// The start.
    Fresh(Q),
    Shares(Q),
    Checks(Q),
    Takes(Q),
    Reloads(Q),
    Releases(After<Q, C>),
    Resumes(After<Q, C>),
    Begins(Q),
    /// The task's value, for which the run waits.
    Looks(T, W),
    Loads(T, W),
    Ends,
    Refuses,
    Unshares,
    /// None: all is done, or memory was wanted.
    Over,
}

/// One request on its way from its share to its end.
#[derive(Drop)]
pub struct Actor<M: Requests> {
    stage: Stage<M::Request, M::Task, M::Waiting, Cause<M>>,
}

impl<M: Requests> Model for Actor<M> {
    ghost use Rattle.system_events.specs.declared.event.Cause.{Cause};
    ghost use Rattle.request_actor.specs.declared.actor.Stage.{Stage};

    ghost Value = { Stage M.Request M.Task M.Waiting (Cause M M.Task M.Value M.Program M.Request M.Reply M.Fault) };

    ghost view = { λ a. a.stage };
}

// Puts another stage in the place of one, and asks.
fn set_stage<Q: Drop, T: Drop, W: Drop, C: Drop>(
    stage: &mut Stage<Q, T, W, C>,
    next: Stage<Q, T, W, C>,
)
    ensures { stage.new ≡ next }
{
    *stage = next;
}

impl<M: Requests> Actor<M> {
    /// The actor of a request. It was asked for nothing yet.
    pub fn new(request: M::Request) -> Actor<M>
        ensures { result ≡ Stage.Fresh request }
    {
        Actor {
            stage: Stage::Fresh(request),
        }
    }

    /// What is asked for next, after an answer to what was asked for last. From the answer to Begin on the program is
    /// that of the Begin. After want of memory the actor is only dropped.
    pub fn next(
        &mut self,
        program: &M::Program,
        answered: Answered<M::Value, M::Error, Cause<M>>,
    ) -> Result<Op<M>, AllocError>
        requires { Fits self.old answered }
        ensures order { IfOk result (λ asked. Goes M.talks program.now self.old answered asked self.new) }
        ensures right { IfOk result
            (λ asked. KeepsRight M.facts M.talks program.now self.old answered asked self.new) }
    {
        match mem::replace(&mut self.stage, Stage::Over) {
            Stage::Fresh(request) => Ok(self.ask(Op::Share, Stage::Shares(request))),
            Stage::Shares(request) => Ok(self.ask(Op::Check, Stage::Checks(request))),
            Stage::Checks(request) => Ok(self.checked(request, answered)),
            Stage::Takes(request) => Ok(self.ask(Op::Reload, Stage::Reloads(request))),
            Stage::Reloads(request) => {
                let next = after_reload(request, answered);
                Ok(self.ask(Op::Release, Stage::Releases(next)))
            }
            Stage::Releases(next) => Ok(self.released(next, answered)),
            Stage::Resumes(next) => Ok(self.goes_on(next)),
            Stage::Begins(request) => {
                let run = M::begin(program, &request)?;
                self.run(program, run)
            }
            Stage::Looks(task, waiting) => self.looked(program, task, waiting, answered),
            Stage::Loads(task, waiting) => self.loaded(task, waiting, answered),
            Stage::Ends | Stage::Refuses => Ok(self.ask(Op::Unshare, Stage::Unshares)),
            Stage::Unshares => Ok(self.ask(Op::Finished, Stage::Over)),
            Stage::Over => unreachable!(),
        }
    }

    /// The request, where it is to begin still; not in an unload section's release.
    pub fn request(&self) -> Option<&M::Request>
        ensures { option_map (λ request. request.now) result ≡ request_at_stage self.now }
    {
        match &self.stage {
            Stage::Fresh(request) => Some(request),
            Stage::Shares(request) => Some(request),
            Stage::Checks(request) => Some(request),
            Stage::Takes(request) => Some(request),
            Stage::Reloads(request) => Some(request),
            Stage::Begins(request) => Some(request),
            _ => None,
        }
    }

    /// Whether this is an answer of what was asked for last.
    pub fn takes(&self, answered: &Answered<M::Value, M::Error, Cause<M>>) -> bool
        ensures { IsTrue result ↔ Fits self.now answered.now }
    {
        match &self.stage {
            Stage::Fresh(_) => is_start(answered),
            Stage::Checks(_) => is_of_check(answered),
            Stage::Reloads(_) => is_of_reload(answered),
            Stage::Releases(_) => is_of_release(answered),
            Stage::Looks(_, _) => is_of_look(answered),
            Stage::Loads(_, _) => is_of_load(answered),
            Stage::Over => false,
            _ => is_done(answered),
        }
    }

    // Asks for an operation, whose answer is awaited at this stage.
    fn ask(&mut self, op: Op<M>, stage: Stage<M::Request, M::Task, M::Waiting, Cause<M>>) -> Op<M>
        ensures asked { result ≡ op }
        ensures stage { self.new ≡ stage }
    {
        set_stage(&mut self.stage, stage);
        op
    }

    fn checked(
        &mut self,
        request: M::Request,
        answered: Answered<M::Value, M::Error, Cause<M>>,
    ) -> Op<M>
        requires { FitsCheck answered }
        ensures { AfterCheck request answered result self.new }
    {
        match answered {
            Answered::Same => self.ask(Op::Begin, Stage::Begins(request)),
            Answered::Differs => self.ask(Op::Take(Want::Unload), Stage::Takes(request)),
            Answered::Fault(cause) => self.ask(Op::Refuse(cause), Stage::Refuses),
            _ => unreachable!(),
        }
    }

    fn released(
        &mut self,
        next: After<M::Request, Cause<M>>,
        answered: Answered<M::Value, M::Error, Cause<M>>,
    ) -> Op<M>
        ensures { AfterRelease next answered result self.new }
    {
        match answered {
            Answered::Waits => self.ask(Op::Resume, Stage::Resumes(next)),
            _ => self.goes_on(next),
        }
    }

    // What comes behind an unload section.
    fn goes_on(&mut self, next: After<M::Request, Cause<M>>) -> Op<M>
        ensures { GoesOn next result self.new }
    {
        match next {
            After::Begins(request) => self.ask(Op::Begin, Stage::Begins(request)),
            After::Refuses(cause) => self.ask(Op::Refuse(cause), Stage::Refuses),
        }
    }

    // Asks for what a run comes to.
    fn run(&mut self, program: &M::Program, run: M::Run) -> Result<Op<M>, AllocError>
        ensures { IfOk result (λ asked. Runs M.talks.branch (M.talks.rest run) asked self.new) }
    {
        match M::run(program, run)? {
            Asked::Replies(reply) => Ok(self.ask(Op::End(reply), Stage::Ends)),
            Asked::Asks(task, waiting) => {
                let asked = M::copy_task(&task)?;
                Ok(self.ask(Op::Look(asked), Stage::Looks(task, waiting)))
            }
        }
    }

    fn looked(
        &mut self,
        program: &M::Program,
        task: M::Task,
        waiting: M::Waiting,
        answered: Answered<M::Value, M::Error, Cause<M>>,
    ) -> Result<Op<M>, AllocError>
        ensures { IfOk result (λ asked. AfterLook M.talks task waiting answered asked self.new) }
    {
        match answered {
            Answered::Found(value) => {
                let run = M::supply(waiting, &value)?;
                self.run(program, run)
            }
            _ => {
                let asked = M::copy_task(&task)?;
                Ok(self.ask(Op::Load(asked), Stage::Loads(task, waiting)))
            }
        }
    }

    fn loaded(
        &mut self,
        task: M::Task,
        waiting: M::Waiting,
        answered: Answered<M::Value, M::Error, Cause<M>>,
    ) -> Result<Op<M>, AllocError>
        ensures { IfOk result (λ asked. AfterLoad M.talks task waiting answered asked self.new) }
    {
        match answered {
            Answered::Failed(error) => {
                let reply = M::failed(error)?;
                Ok(self.ask(Op::End(reply), Stage::Ends))
            }
            _ => {
                let asked = M::copy_task(&task)?;
                Ok(self.ask(Op::Look(asked), Stage::Looks(task, waiting)))
            }
        }
    }
}

// What comes behind the release after a reload.
fn after_reload<M: Requests>(
    request: M::Request,
    answered: Answered<M::Value, M::Error, Cause<M>>,
) -> After<M::Request, Cause<M>>
    ensures { result ≡ after_reload request answered }
{
    match answered {
        Answered::Fault(cause) => After::Refuses(cause),
        _ => After::Begins(request),
    }
}
