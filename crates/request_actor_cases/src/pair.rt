//! A matter of two tasks.
use request_actor::{Asked, Requests};
use std::alloc::{AllocError, Global};
use system_events::Matter;

/// A task.
#[derive(Clone, Copy, Debug, PartialEq, Eq, Drop)]
pub enum Name {
    A,
    B,
}

/// A request: for nothing, for `a`, or for the sum of both.
#[derive(Clone, Copy, Debug, PartialEq, Eq, Drop)]
pub enum Wish {
    Nothing,
    First,
    Both,
}

/// A run that goes on.
#[derive(Clone, Copy, Drop)]
pub enum Going {
    Begun(Wish),
    /// Whether `b` is asked for next, and the value of `a`.
    HasFirst(bool, u64),
    HasBoth(u64),
}

/// A run that waits.
#[derive(Clone, Copy, Drop)]
pub enum Stopped {
    WantsFirst(bool),
    WantsSecond(u64),
}

/// The matter.
pub struct Pair;

impl Matter for Pair {
    ghost use Rattle.request_actor_cases.specs.Pair.{facts};
    ghost use Rattle.request_actor_cases.specs.Laws.{same_is_equal};

    type Task = Name;

    type Value = u64;

    type Program = u64;

    type Request = Wish;

    type Reply = u64;

    type Fault = u8;

    ghost facts = { facts };

    fn same_task(a: &Name, b: &Name) -> bool {
        match (a, b) {
            (Name::A, Name::A) => true,
            (Name::B, Name::B) => true,
            _ => false,
        }
    }

    fn hash(_task: &Name) -> u64 {
        0
    }

    fn same_stamps(a: &u64, b: &u64) -> bool {
        *a == *b
    }

    fn changed_bytes(_before: &u64, _after: &u64) -> u64 {
        0
    }

    fn reply_bytes(_reply: &u64) -> u64 {
        0
    }

    fn empty(_alloc: Global) -> Result<u64, AllocError> {
        Ok(0)
    }

    fn share(program: &u64) -> u64 {
        *program
    }

    ghost same_is_equal = { same_is_equal };
}

impl Requests for Pair {
    ghost use Rattle.request_actor_cases.specs.Pair.{talks};
    ghost use Rattle.request_actor_cases.specs.Laws.{are_of};

    type Run = Going;

    type Waiting = Stopped;

    type Error = u64;

    ghost talks = { talks };

    fn begin(_program: &u64, request: &Wish) -> Result<Going, AllocError> {
        Ok(Going::Begun(*request))
    }

    fn run(_program: &u64, run: Going) -> Result<Asked<Name, u64, Stopped>, AllocError> {
        Ok(match run {
            Going::Begun(Wish::Nothing) => Asked::Replies(0),
            Going::Begun(Wish::First) => Asked::Asks(Name::A, Stopped::WantsFirst(false)),
            Going::Begun(Wish::Both) => Asked::Asks(Name::A, Stopped::WantsFirst(true)),
            Going::HasFirst(false, value) => Asked::Replies(value),
            Going::HasFirst(true, value) => Asked::Asks(Name::B, Stopped::WantsSecond(value)),
            Going::HasBoth(value) => Asked::Replies(value),
        })
    }

    // A sum past 64 bits counts as want of memory.
    fn supply(waiting: Stopped, value: &u64) -> Result<Going, AllocError> {
        match waiting {
            Stopped::WantsFirst(more) => Ok(Going::HasFirst(more, *value)),
            Stopped::WantsSecond(first) => match first.checked_add(*value) {
                None => Err(AllocError),
                Some(sum) => Ok(Going::HasBoth(sum)),
            },
        }
    }

    fn failed(error: u64) -> Result<u64, AllocError> {
        Ok(error)
    }

    fn copy_task(task: &Name) -> Result<Name, AllocError> {
        Ok(*task)
    }

    ghost replies_follow = { are_of };
}
