ghost use Rattle.std.specs.Prelude.{◌≡◌, [], ℕ};
ghost use Rattle.ruby_machine_names.specs.Steps.{here_of};
ghost use Rattle.ruby_machine_requests.specs.Requests.{Begun};

use ruby_machine_frames::Core;
use ruby_machine_names::HereCode;
use ruby_machine_state::StateCode;
use ruby_types::Value;
use std::alloc::Global;

/// The frames of methods that a run may open.
const FRAMES: u32 = 1_000;

/// A machine at the beginning of a run's code, without frames.
pub fn begun(alloc: Global, here: HereCode, itself: Value, turns: u32) -> Core
    ensures { Begun here itself turns result }
{
    Core {
        frames: Vec::new(alloc),
        here,
        state: StateCode {
            itself,
            locals: Vec::new(alloc),
        },
        left: FRAMES,
        turns,
    }
}
