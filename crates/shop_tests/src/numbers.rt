//! A matter of numbers.

use std::alloc::{AllocError, Global};
use system_core::Matter;

/// The matter. A program is a number, tasks are 1, 2 and 3, and a request is answered by its number and the program's.
pub struct Numbers;

impl Matter for Numbers {
    ghost use Rattle.shop_tests.specs.Numbers.{numbers, same_number};

    type Task = u32;

    type Value = u64;

    type Program = u32;

    type Request = u32;

    type Reply = u64;

    type Fault = u8;

    ghost facts = { numbers };

    fn same_task(a: &u32, b: &u32) -> bool {
        *a == *b
    }

    fn hash(task: &u32) -> u64 {
        u64::from(*task)
    }

    fn same_stamps(a: &u32, b: &u32) -> bool {
        *a == *b
    }

    fn changed_bytes(_before: &u32, after: &u32) -> u64 {
        u64::from(*after)
    }

    fn reply_bytes(reply: &u64) -> u64 {
        *reply
    }

    fn empty(_alloc: Global) -> Result<u32, AllocError> {
        Ok(0)
    }

    fn share(program: &u32) -> u32 {
        *program
    }

    ghost same_is_equal = { same_number };
}
