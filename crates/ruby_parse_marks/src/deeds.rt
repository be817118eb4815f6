//! What is done to paths, by their numbers.

ghost use Rattle.std.specs.Prelude.{◌≡◌, not, IfOk, OnOk, OnErr};
ghost use Rattle.std.specs.List.{list_any};
ghost use Rattle.indexmap.specs.IndexSet.{insert_key};
ghost use Rattle.ruby_parse_marks.specs.Deeds.{has_number, with_number, same_method};

use indexmap::IndexSet;
use std::alloc::{AllocError, Global};

/// A method of the body at the path with this number.
#[derive(PartialEq, Eq, Hash, Drop)]
pub struct Method {
    pub body: usize,
    pub single: bool,
    pub name: Vec<u8>,
}

/// The numbers of the paths that are assigned, opened or given a parent, and the methods that are defined.
#[derive(Drop)]
pub struct Deeds {
    pub assigned: IndexSet<usize>,
    pub modules: IndexSet<usize>,
    pub classes: IndexSet<usize>,
    pub parents: IndexSet<usize>,
    pub methods: IndexSet<Method>,
}

/// Whether the number is one of these.
pub fn has(numbers: &IndexSet<usize>, number: usize) -> bool
    ensures { result ≡ has_number numbers.now.keys number }
{
    numbers.contains(&number)
}

/// Adds a number, and says whether it wasn't there.
pub fn note(numbers: &mut IndexSet<usize>, number: usize) -> Result<bool, AllocError>
    ensures fresh { IfOk result (λ fresh. fresh ≡ not (has_number numbers.old.keys number)) }
    ensures ok { OnOk result (numbers.new.keys ≡ with_number numbers.old.keys number) }
    ensures err { OnErr result (numbers.new.keys ≡ numbers.old.keys) }
{
    match numbers.insert(number) {
        Ok(fresh) => return Ok(fresh),
        Err(_) => {}
    }
    Err(AllocError)
}

/// Adds a method, and says whether it wasn't there.
pub fn note_method(methods: &mut IndexSet<Method>, method: Method) -> Result<bool, AllocError>
    ensures fresh { IfOk result (λ fresh. fresh ≡ not (list_any (same_method method) methods.old.keys)) }
    ensures ok { OnOk result (methods.new.keys ≡ insert_key same_method methods.old.keys method) }
    ensures err { OnErr result (methods.new.keys ≡ methods.old.keys) }
{
    match methods.insert(method) {
        Ok(fresh) => return Ok(fresh),
        Err(_) => {}
    }
    Err(AllocError)
}
