ghost use Rattle.std.specs.Prelude.{◌≡◌, ◌+◌};
ghost use Rattle.ruby_machine_names.specs.Steps.{here_of};
ghost use Rattle.ruby_machine_frames.specs.Rest.{KeptFrom, calls, gives_of, load};

use crate::instances::call_object;
use crate::singletons::call_module;
use program_lookups::Lookups;
use ruby_machine_built_in::built_in;
use ruby_machine_frames::{Control, Core, Stop};
use ruby_types::{Items, Text, Value};
use std::alloc::Global;

/// Calls a method of a value by its name.
pub fn call<P: Lookups>(
    core: &mut Core,
    alloc: Global,
    program: &P,
    on: Value,
    name: Text,
    args: Items,
) -> Result<Control, Stop>
    ensures { let i = P.index program.now in
        let k = P.entries program.now in
        KeptFrom i k
        (calls i k core.old.left (here_of core.old.here) on name args core.old.turns (gives_of i k core.old))
        (load core.old + 9) result core.new }
{
    match on {
        Value::Module(path) => call_module(core, alloc, program, path, name, args),
        Value::Object(class, variables) => {
            call_object(core, alloc, program, class, variables, name, args)
        }
        other => built_in(core, alloc, &other, &name, &args),
    }
}
