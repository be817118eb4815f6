ghost use Rattle.std.specs.Prelude.{◌≡◌, IfOk, None};
ghost use Rattle.std.specs.Option.{option_map};
ghost use Rattle.program_lookups.specs.Codes.{method_of, own_singleton};
ghost use Rattle.ruby_runs.specs.Bodies.{singleton_of_class};
ghost use Rattle.ruby_machine_methods.specs.Finding.{SingletonBy, singleton_among};

use program_lookups::{Lookups, MethodCode};
use ruby_machine_names::{is_class, members};
use ruby_types::{CPath, Text, Value};
use std::alloc::{AllocError, Global};

/// What the search for a method comes to before anything is asked for.
pub enum MethodStep<'a> {
    Found(&'a MethodCode),
    Missing,
    /// The ancestors have to be asked for.
    Asks,
}

/// The singleton method that a call on a module or class finds.
#[tactic(auto, using(crate::proofs::Finds::own_singleton_at_path))]
pub fn find_singleton<'a, P: Lookups>(program: &'a P, path: &CPath, name: &Text) -> MethodStep<'a>
    ensures { SingletonBy (P.index program.now) (P.entries program.now) path.now name.now result }
{
    match program.singleton(path, name) {
        Some(found) => MethodStep::Found(found),
        None => without_own(program, path, name),
    }
}

/// The same where the module or class itself hasn't the method: only those of a class are inherited.
#[tactic(auto, using(crate::proofs::Finds::class_asks_at_path, crate::proofs::Finds::no_singleton_at_path))]
fn without_own<'a, P: Lookups>(program: &'a P, path: &CPath, name: &Text) -> MethodStep<'a>
    requires { own_singleton name.now ((P.index program.now).place path.now) ≡ None }
    ensures { SingletonBy (P.index program.now) (P.entries program.now) path.now name.now result }
{
    if is_class(program, path) {
        MethodStep::Asks
    } else {
        MethodStep::Missing
    }
}

/// The first of these ancestors behind the first that is a class and has the singleton method.
pub fn inherited_singleton<'a, P: Lookups>(
    alloc: Global,
    program: &'a P,
    name: &Text,
    ancestors: &Value,
) -> Result<Option<&'a MethodCode>, AllocError>
    ensures { IfOk result (λ found. option_map (λ m. method_of (P.entries program.now) m.now) found ≡
        singleton_among (P.index program.now) name.now ancestors.now) }
{
    let paths = members(alloc, ancestors)?;
    'paths: for at in 1..paths.len() {
        match class_singleton(program, &paths[at], name) {
            Some(found) => return Ok(Some(found)),
            None => {}
        }
    }
    Ok(None)
}

/// The singleton method of a class.
#[tactic(auto, using(crate::proofs::Finds::singleton_of_class_is))]
fn class_singleton<'a, P: Lookups>(
    program: &'a P,
    path: &CPath,
    name: &Text,
) -> Option<&'a MethodCode>
    ensures { option_map (λ m. method_of (P.entries program.now) m.now) result ≡
        singleton_of_class name.now ((P.index program.now).place path.now) }
{
    if is_class(program, path) {
        program.singleton(path, name)
    } else {
        None
    }
}
