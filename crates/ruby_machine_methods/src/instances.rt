ghost use Rattle.std.specs.Prelude.{◌≡◌, IfOk, None};
ghost use Rattle.std.specs.Option.{option_map};
ghost use Rattle.program_lookups.specs.Codes.{method_of, own_instance};
ghost use Rattle.ruby_machine_methods.specs.Finding.{InstanceBy, instance_among};

use crate::singletons::MethodStep;
use program_lookups::{Lookups, MethodCode};
use ruby_machine_names::{asks_ancestors, members};
use ruby_types::{CPath, Text, Value};
use std::alloc::{AllocError, Global};

/// The instance method or reader that a call on an object of a class finds.
#[tactic(auto, using(crate::proofs::Finds::own_instance_at_path))]
pub fn find_instance<'a, P: Lookups>(program: &'a P, path: &CPath, name: &Text) -> MethodStep<'a>
    ensures { InstanceBy (P.index program.now) (P.entries program.now) path.now name.now result }
{
    match program.instance(path, name) {
        Some(found) => MethodStep::Found(found),
        None => without_own(program, path, name),
    }
}

/// The same where the class itself hasn't the method.
#[tactic(auto, using(crate::proofs::Finds::instance_asks_at_path, crate::proofs::Finds::no_instance_at_path))]
fn without_own<'a, P: Lookups>(program: &'a P, path: &CPath, name: &Text) -> MethodStep<'a>
    requires { own_instance name.now ((P.index program.now).place path.now) ≡ None }
    ensures { InstanceBy (P.index program.now) (P.entries program.now) path.now name.now result }
{
    if asks_ancestors(program, path) {
        MethodStep::Asks
    } else {
        MethodStep::Missing
    }
}

/// The first of these ancestors that has the instance method or reader.
pub fn inherited_instance<'a, P: Lookups>(
    alloc: Global,
    program: &'a P,
    name: &Text,
    ancestors: &Value,
) -> Result<Option<&'a MethodCode>, AllocError>
    ensures { IfOk result (λ found. option_map (λ m. method_of (P.entries program.now) m.now) found ≡
        instance_among (P.index program.now) name.now ancestors.now) }
{
    let paths = members(alloc, ancestors)?;
    'paths: for at in 0..paths.len() {
        match program.instance(&paths[at], name) {
            Some(found) => return Ok(Some(found)),
            None => {}
        }
    }
    Ok(None)
}
