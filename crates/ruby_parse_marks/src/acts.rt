//! What an act clashes with, and what it adds.

ghost use Rattle.std.specs.Prelude.{◌≡◌, ◌||◌, IfOk, OnErr};
ghost use Rattle.ruby_parse_marks.specs.Deeds.{Does, done_of, nothing_done, has_number};

use crate::act::Act;
use crate::deeds::{Deeds, Method, has, note, note_method};
use indexmap::IndexSet;
use std::alloc::{AllocError, Global};

/// Nothing done.
pub fn nothing(alloc: Global) -> Deeds
    ensures { done_of result ≡ nothing_done }
{
    Deeds {
        assigned: IndexSet::new(alloc),
        modules: IndexSet::new(alloc),
        classes: IndexSet::new(alloc),
        parents: IndexSet::new(alloc),
        methods: IndexSet::new(alloc),
    }
}

/// Whether either of these has the number.
fn has_either(numbers: &IndexSet<usize>, others: &IndexSet<usize>, number: usize) -> bool
    ensures { result ≡ (has_number numbers.now.keys number || has_number others.now.keys number) }
{
    has(numbers, number) || has(others, number)
}

/// Does this to the path with this number, and says whether it could: nothing is done where it clashes.
pub fn done(deeds: &mut Deeds, number: usize, act: Act) -> Result<bool, AllocError>
    ensures ok { IfOk result (λ could. Does (done_of deeds.old) number act could (done_of deeds.new)) }
    ensures err { OnErr result (done_of deeds.new ≡ done_of deeds.old) }
{
    match act {
        Act::Assigns => {
            if has_either(&deeds.modules, &deeds.classes, number) {
                return Ok(false);
            }
            note(&mut deeds.assigned, number)
        }
        Act::OpensModule => {
            if has_either(&deeds.assigned, &deeds.classes, number) {
                return Ok(false);
            }
            note(&mut deeds.modules, number)?;
            Ok(true)
        }
        Act::OpensClass => {
            if has_either(&deeds.assigned, &deeds.modules, number) {
                return Ok(false);
            }
            note(&mut deeds.classes, number)?;
            Ok(true)
        }
        Act::GivesParent => note(&mut deeds.parents, number),
        Act::Defines { single, name } => {
            let method = Method {
                body: number,
                single,
                name,
            };
            note_method(&mut deeds.methods, method)
        }
    }
}
