//! A matter of three letters.
ghost use Rattle.std.specs.Prelude.{◌≡◌, ◌↔◌, IsTrue};
ghost use Rattle.system_events.specs.Facts.{Needs};
ghost use Rattle.system_core_cases.specs.Letters.{asked_by, number_of};

use std::alloc::{AllocError, Global};
use system_events::Matter;

/// A task, and a request for it.
#[derive(Clone, Copy, Debug, PartialEq, Eq, Drop)]
pub enum Letter {
    A,
    B,
    C,
}

/// The matter.
pub struct Letters;

impl Matter for Letters {
    ghost use Rattle.system_core_cases.specs.Letters.{letters};
    ghost use Rattle.system_core_cases.specs.Equal.{same_is_equal};

    type Task = Letter;

    type Value = u64;

    type Program = u32;

    type Request = Letter;

    type Reply = u64;

    type Fault = u8;

    ghost facts = { letters };

    fn same_task(a: &Letter, b: &Letter) -> bool {
        match (a, b) {
            (Letter::A, Letter::A) => true,
            (Letter::B, Letter::B) => true,
            (Letter::C, Letter::C) => true,
            _ => false,
        }
    }

    fn hash(task: &Letter) -> u64 {
        match task {
            Letter::A => 1,
            Letter::B => 2,
            Letter::C => 2,
        }
    }

    fn same_stamps(a: &u32, b: &u32) -> bool {
        *a == *b
    }

    fn changed_bytes(_before: &u32, after: &u32) -> u64 {
        u64::from(*after)
    }

    fn reply_bytes(reply: &u64) -> u64 {
        *reply
    }

    fn empty(_alloc: Global) -> Result<u32, AllocError> {
        Ok(0)
    }

    fn share(program: &u32) -> u32 {
        *program
    }

    ghost same_is_equal = { same_is_equal };
}

/// A is 1, B is 2, C is 3.
pub fn number(letter: Letter) -> u64
    ensures { result ≡ number_of letter }
{
    match letter {
        Letter::A => 1,
        Letter::B => 2,
        Letter::C => 3,
    }
}

/// Whether one letter needs another.
pub fn needs(sought: Letter, letter: Letter) -> bool
    ensures { IsTrue result → Needs asked_by sought letter }
{
    match (sought, letter) {
        (Letter::A, Letter::A) => true,
        (Letter::B, Letter::B) => true,
        (Letter::C, Letter::C) => true,
        (Letter::C, Letter::B) => true,
        _ => false,
    }
}
