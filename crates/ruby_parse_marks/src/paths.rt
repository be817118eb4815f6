//! Paths by number: 0 is the top's, and each name in a numbered path makes one more.

ghost use Rattle.std.specs.Prelude.{◌≡◌, ◌∷◌, ◌++◌, [], IfOk, OnErr};
ghost use Rattle.ruby_parse_marks.specs.Paths.{Numbers};

use indexmap::IndexMap;
use std::alloc::{AllocError, Global};

/// A name in the body of the path with this number.
#[derive(PartialEq, Eq, Hash, Drop)]
pub struct Inner {
    pub outer: usize,
    pub name: Vec<u8>,
}

/// The number of this name in the body of the path with that number.
pub fn number(
    alloc: Global,
    paths: &mut IndexMap<Inner, usize>,
    outer: usize,
    name: &[u8],
) -> Result<usize, AllocError>
    ensures ok { IfOk result (λ n. Numbers paths.old.entries outer name.now n paths.new.entries) }
    ensures err { OnErr result (paths.new.entries ≡ paths.old.entries) }
{
    let inner = Inner {
        outer,
        name: Vec::from_slice(alloc, name)?,
    };
    match paths.get(&inner) {
        Some(known) => return Ok(*known),
        None => {}
    }
    let next = paths.len().checked_add(1).ok_or(AllocError)?;
    match paths.insert(inner, next) {
        Ok(_) => return Ok(next),
        Err(_) => {}
    }
    Err(AllocError)
}
