ghost use Rattle.std.specs.Prelude.{◌≡◌, ◌+◌, List};
ghost use Rattle.program_places.specs.Places.{Index};
ghost use Rattle.ruby_nodes.specs.Entries.{Entry};
ghost use Rattle.ruby_runs.specs.BuiltIns as built_ins;
ghost use Rattle.ruby_machine_names.specs.Steps.{here_of};
ghost use Rattle.ruby_machine_frames.specs.Rest.{KeptFrom, gives_of, load};

use crate::sizes::without_size;
use ruby_machine_frames::{Control, Core, Stop};
use ruby_types::Value;
use std::alloc::Global;

/// Pays for a value that is made, a turn for each 16 of its size, and gives it.
pub fn made(core: &mut Core, alloc: Global, value: Value) -> Result<Control, Stop>
    ensures { (index : Index) (known : List Entry) → KeptFrom index known
        (built_ins.made (here_of core.old.here) value core.old.turns (gives_of index known core.old))
        (load core.old + 6) result core.new }
{
    let most = core.turns as u64 * 16 + 15;
    match without_size(most, &value) {
        Some(rest) => {
            core.turns -= ((most - rest) / 16) as u32;
            Ok(Control::Gives(value))
        }
        None => Err(core.spent(alloc)),
    }
}
