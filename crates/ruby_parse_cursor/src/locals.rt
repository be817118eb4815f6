//! The local variables of a method.

ghost use Rattle.std.specs.Prelude.{◌≡◌, ◌∷◌, [], OnOk};
ghost use Rattle.ruby_grammar.specs.Terminals.{has};

use std::alloc::{AllocError, Global};
use std::collections::BTreeSet;
use std::marker::Model;

/// The names that are variables so far: parameters, and what was assigned.
#[derive(Drop)]
pub struct Locals<'a> {
    /// Each as it became one, also where it was one before.
    names: Vec<&'a [u8]>,
    known: BTreeSet<Vec<u8>>,
    alloc: Global,
}

impl<'a> Model for Locals<'a> {
    ghost use Rattle.std.specs.Prelude.{List, ℕ};
    ghost use Rattle.ruby_parse_cursor.specs.Names.{latest_first, IsKnown};

    ghost Value = { List (List ℕ) };

    ghost view = { λ l. latest_first (λ name. name.now) l.names.items };

    ghost invariant = { λ l. IsKnown l.known (latest_first (λ name. name.now) l.names.items) };
}

impl<'a> Locals<'a> {
    /// No variables, which take no memory.
    pub fn new(alloc: Global) -> Locals<'a>
        ensures { result ≡ [] }
    {
        Locals {
            names: Vec::new(alloc),
            known: BTreeSet::new(alloc),
            alloc,
        }
    }

    /// Whether a variable has this name. A look-up, which doesn't scan them.
    pub fn contains(&self, name: &[u8]) -> bool
        ensures { result ≡ has self.now name.now }
    {
        self.known.contains(name)
    }

    /// The latest name comes first.
    pub fn insert(&mut self, name: &'a [u8]) -> Result<(), AllocError>
        ensures { OnOk result (self.new ≡ name.now ∷ self.old) }
    {
        let key = Vec::from_slice(self.alloc, name)?;
        self.names.push(name)?;
        match self.known.insert(key) {
            Ok(_) => return Ok(()),
            Err(_) => {}
        }
        self.names.pop();
        Err(AllocError)
    }
}
