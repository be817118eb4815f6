//! What an open request of a seat does next, and what comes of a step.

use by_need_loader::Loader;
use lists::{Listed, Text};
use request_actor::{Actor, Op, Requests};
use request_loads::Loads;
use system_events::Matter;

/// What an open request does at its next step. O: operations. T: tasks. L: loaders. E: why a task stays unknown.
#[derive(Drop)]
pub enum Next<O, T, L, E> {
    /// An operation that is no load.
    Does(O),
    /// It opens the load section of this task.
    Opens(T),
    /// Its load section defines the next task, or closes where the load has ended.
    Defines(L),
    /// It resumes behind its load section, whose load failed for this reason, or was done.
    Resumes(Option<E>),
}

/// An open request of a seat. A: actors. N: what comes next.
#[derive(Drop)]
pub struct OpenRequest<A, N> {
    pub actor: A,
    pub next: N,
}

/// What comes of a step of an open request, with the lines that tell it. R: open requests.
#[derive(Drop)]
pub enum Stepped<R> {
    /// The step is made. None: the request is over.
    Went(Listed<Text>, Option<R>),
    /// A guard refuses the step, and the request is as it was.
    Waits(Text, R),
    /// A limit of requests, replies, generations or kept bytes is met. Nothing is told.
    Limit,
}

/// What an open request of a matter does next.
pub type NextOf<M> = Next<
    Op<M>,
    <M as Matter>::Task,
    Loader<<M as Loads>::Theory>,
    <M as Requests>::Error,
>;

/// An open request of a matter.
pub type RequestOf<M> = OpenRequest<Actor<M>, NextOf<M>>;

/// What comes of a step of an open request of a matter.
pub type SteppedOf<M> = Stepped<RequestOf<M>>;
