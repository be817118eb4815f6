ghost use Rattle.std.specs.Prelude.{◌≡◌, ◌≤◌, ◌-◌, ◌+◌, List};
ghost use Rattle.program_places.specs.Places.{Index};
ghost use Rattle.ruby_nodes.specs.Entries.{Entry};
ghost use Rattle.ruby_runs.specs.BuiltIns.{built_in_call};
ghost use Rattle.ruby_machine_names.specs.Profile.{profile};
ghost use Rattle.ruby_machine_names.specs.Steps.{here_of};
ghost use Rattle.ruby_machine_frames.specs.Rest.{KeptFrom, gives_of, load};

use crate::errors::{raised_here, undefined_method};
use ruby_builtin::{Called, call};
use ruby_machine_frames::{Control, Core, Stop};
use ruby_types::{Items, Text, Value};
use std::alloc::Global;

/// The turns that are left behind a cost.
fn behind(turns: u32, cost: u64) -> u32
    requires { cost ≤ turns }
    ensures { result ≡ turns - cost }
{
    (turns as u64 - cost) as u32
}

/// Calls a built-in method, and spends what it costs.
pub fn built_in(
    core: &mut Core,
    alloc: Global,
    on: &Value,
    name: &Text,
    args: &Items,
) -> Result<Control, Stop>
    ensures { (index : Index) (known : List Entry) → KeptFrom index known
        (built_in_call profile (here_of core.old.here) on.now name.now args.now core.old.turns
        (gives_of index known core.old)) (load core.old + 6) result core.new }
{
    match call(alloc, on, name.as_bytes(), args, core.turns as u64) {
        Called::Value(value, cost) => {
            core.turns = behind(core.turns, cost);
            Ok(Control::Gives(value))
        }
        Called::Raised(error) => Err(raised_here(alloc, &core.here, error)),
        Called::NoMethod => Err(undefined_method(alloc, &core.here, on, name)),
        Called::Memory => Err(Stop::Memory),
    }
}
