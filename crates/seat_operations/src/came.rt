//! What comes of a step.

use lists::Text;
use request_actor::{Answered, Op, Requests};
use system_events::{Act, Cause, Matter};

/// What comes of a step at an operation, with the line that tells it. O: operations. A: answers.
#[derive(Drop)]
pub enum Came<O, A> {
    /// The operation is done, and this is its answer.
    Answered(Text, A),
    /// The seat seeks to be exclusive now, and the operation is asked for still.
    Sought(Text, O),
    /// A guard refuses the step, and the operation is asked for still.
    Waits(Text, O),
    /// A limit of requests, replies, generations or kept bytes is met. Nothing is told.
    Limit,
}

/// An answer of an operation of a matter's requests.
pub type AnswerOf<M> = Answered<<M as Matter>::Value, <M as Requests>::Error, Cause<M>>;

/// What comes of a step at an operation of a matter's requests.
pub type CameOf<M> = Came<Op<M>, AnswerOf<M>>;

/// What comes of an act that is tried, with the line that tells it.
#[derive(Drop)]
pub enum Tried<M: Matter> {
    /// It stands in the history.
    Done(Text),
    /// A guard refuses it, and here it is.
    Waits(Text, Act<M>),
    /// A limit is met.
    Full,
}

/// What comes of a step that is to make a seat exclusive, with the line that tells it.
#[derive(Drop)]
pub enum Taking {
    /// It is exclusive.
    Taken(Text),
    /// It seeks to be.
    Sought(Text),
    /// It waits.
    Waits(Text),
    /// A limit is met.
    Full,
}
