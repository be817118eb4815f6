ghost use Rattle.std.specs.Prelude.{◌≡◌, ◌+◌, List};
ghost use Rattle.program_places.specs.Places.{Index};
ghost use Rattle.ruby_nodes.specs.Entries.{Entry};
ghost use Rattle.ruby_runs.specs.Bodies.{Flow, left_by};
ghost use Rattle.ruby_machine_frames.specs.declared.frames.Frame.TheVariants as frame;
ghost use Rattle.ruby_machine_frames.specs.Rest.{KeptFrom, frame_meaning, left_to, load};

use ruby_machine_frames::{Caller, Control, Core, Stop};
use ruby_machine_state::StateCode;
use ruby_machine_values::made;
use ruby_types::Value;
use std::alloc::Global;
use std::mem;

/// Goes back to where a method was called from, and hands out the method's self.
fn go_back(core: &mut Core, caller: Caller) -> Value
    ensures back { core.new ≡ left_to core.old caller }
    ensures itself { result ≡ core.old.state.itself }
{
    let Caller { here, state, left } = caller;
    core.here = here;
    core.left = left;
    let StateCode { itself, locals: _ } = mem::replace(&mut core.state, state);
    itself
}

/// Leaves a method with its value, be it that of its last statement or of a `return`.
pub fn leave(core: &mut Core, caller: Caller, value: Value) -> Result<Control, Stop>
    ensures { (index : Index) (known : List Entry) (flow : Flow) → (left_by flow).value ≡ value →
        KeptFrom index known (frame_meaning index known core.old (frame.Leave caller) flow)
        (load core.old + 7) result core.new }
{
    go_back(core, caller);
    Ok(Control::Gives(value))
}

/// Leaves `initialize`, whatever its value, and pays for the object that it made.
pub fn leave_new(core: &mut Core, alloc: Global, caller: Caller) -> Result<Control, Stop>
    ensures { (index : Index) (known : List Entry) (flow : Flow) → (left_by flow).self ≡ core.old.state.itself →
        KeptFrom index known (frame_meaning index known core.old (frame.LeaveNew caller) flow)
        (load core.old + 7) result core.new }
{
    let object = go_back(core, caller);
    made(core, alloc, object)
}
