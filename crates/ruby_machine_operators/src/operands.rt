ghost use Rattle.std.specs.Prelude.{◌+◌, List, Ok};
ghost use Rattle.program_places.specs.Places.{Index};
ghost use Rattle.ruby_nodes.specs.Entries.{Entry};
ghost use Rattle.ruby_machine_frames.specs.declared.frames.Frame.TheVariants as frame;
ghost use Rattle.ruby_machine_frames.specs.declared.stack.Core.{Core};
ghost use Rattle.ruby_machine_frames.specs.Rest.{KeptFrom, load};
ghost use Rattle.ruby_machine_values.specs.Beginning.{handed};

use ruby_machine_frames::Control;
use ruby_machine_values::{boolean, is_truthy};
use ruby_types::Value;

/// Takes the operand of `!`.
pub fn give_not(operand: Value) -> Control
    ensures { (index : Index) (known : List Entry) (m : Core) → KeptFrom index known
        (handed index known m frame.Not operand) (load m + 9) (Ok result) m }
{
    Control::Gives(boolean(!is_truthy(&operand)))
}

/// Takes the left side of `&&`: the right side is evaluated where that is true.
pub fn give_and(right: u32, left: Value) -> Control
    ensures { (index : Index) (known : List Entry) (m : Core) → KeptFrom index known
        (handed index known m (frame.And right) left) (load m + 9) (Ok result) m }
{
    if is_truthy(&left) {
        Control::Eval(right)
    } else {
        Control::Gives(left)
    }
}

/// Takes the left side of `||`: the right side is evaluated where that is false.
pub fn give_or(right: u32, left: Value) -> Control
    ensures { (index : Index) (known : List Entry) (m : Core) → KeptFrom index known
        (handed index known m (frame.Or right) left) (load m + 9) (Ok result) m }
{
    if is_truthy(&left) {
        Control::Gives(left)
    } else {
        Control::Eval(right)
    }
}

/// Takes the condition of `? :`, and evaluates one branch.
pub fn give_choose(taken: u32, other: u32, condition: Value) -> Control
    ensures { (index : Index) (known : List Entry) (m : Core) → KeptFrom index known
        (handed index known m (frame.Choose taken other) condition)
        (load m + 9) (Ok result) m }
{
    if is_truthy(&condition) {
        Control::Eval(taken)
    } else {
        Control::Eval(other)
    }
}
