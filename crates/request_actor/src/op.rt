//! What is asked for, and how it is answered.

use system_events::{Cause, Matter, Want};

/// What a worker asks for.
#[derive(Drop)]
pub enum Op<M: Matter> {
    Share,
    /// Reads the stamps of the files. It is answered by Same, Differs or Fault.
    Check,
    Take(Want<M>),
    /// It is answered by Done, by Same where the stamps are equal by then, or by Fault.
    Reload,
    /// It is answered by Done or Waits.
    Release,
    Resume,
    Begin,
    /// It is answered by Found or Missing.
    Look(M::Task),
    /// The whole load section of the task. It is answered by Done or Failed.
    Load(M::Task),
    End(M::Reply),
    Refuse(Cause<M>),
    Unshare,
    Finished,
}

/// What came of an operation. V: values. E: why a task stays unknown. C: causes of refusals.
#[derive(Drop)]
pub enum Answered<V, E, C> {
    /// Nothing was asked for yet.
    Start,
    Done,
    Same,
    Differs,
    Waits,
    Found(V),
    Missing,
    Failed(E),
    Fault(C),
}
