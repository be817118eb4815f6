ghost use Rattle.std.specs.Prelude.{◌≡◌, ◌+◌, ◌++◌, ◌∷◌, [], List, OnOk};
ghost use Rattle.by_need.specs.Asking.{Ask};
ghost use Rattle.program_places.specs.Places.{Index};
ghost use Rattle.ruby_nodes.specs.Entries.{Entry};
ghost use Rattle.ruby_runs.specs.Doing.{spent, turn};
ghost use Rattle.ruby_machine_names.specs.Steps.{Fails, here_of};
ghost use Rattle.ruby_types.specs.declared.request.RubyError.{RubyError};
ghost use Rattle.ruby_machine_frames.specs.declared.frames.Control.TheVariants as control;
ghost use Rattle.ruby_machine_frames.specs.Rest.{KeptFrom, Pushed, Spent, after_of, frame_meaning, gives_of, load};
ghost use Rattle.ruby_machine_frames.specs.Rest.{StopsWith, meaning_over, onto, needs, pushes, weight, with_turns};

use crate::frames::{Control, Frame, Stop};
use ruby_machine_names::{Failure, HereCode};
use ruby_machine_state::StateCode;
use ruby_types::{Task, Value};
use std::alloc::{AllocError, Global};

/// The frames of a run, the last on top; where code runs; and the frames and turns that are left.
#[derive(Drop)]
pub struct Core {
    pub frames: Vec<Frame>,
    pub here: HereCode,
    pub state: StateCode,
    pub left: u32,
    pub turns: u32,
}

/// Adds an item at the end.
pub fn push<T: Drop>(items: &mut Vec<T>, item: T) -> Result<(), AllocError>
    ensures { OnOk result (items.new.items ≡ items.old.items ++ item ∷ []) }
{
    items.push(item)?;
    Ok(())
}

/// Stops as a step failed.
pub fn stop_with(failure: Failure) -> Stop
    ensures { (error : RubyError) → Fails error failure → StopsWith error result }
{
    match failure {
        Failure::Raised(error) => Stop::Raised(error),
        Failure::Memory => Stop::Memory,
    }
}

impl Core {
    /// Spends a turn, if one is left.
    pub fn spend(&mut self) -> bool
        ensures { Spent self.old result self.new }
    {
        if self.turns == 0 {
            return false;
        }
        self.turns -= 1;
        true
    }

    /// Puts a frame on top.
    pub fn push(&mut self, frame: Frame) -> Result<(), Stop>
        ensures { Pushed self.old frame result self.new }
    {
        push(&mut self.frames, frame)?;
        Ok(())
    }

    /// Stops as the turns are spent.
    pub fn spent(&self, alloc: Global) -> Stop
        ensures { StopsWith (spent (here_of self.now.here)) result }
    {
        stop_with(self.here.spent(alloc))
    }

    /// Puts a frame on top, and evaluates an expression.
    pub fn push_eval(&mut self, frame: Frame, expr: u32) -> Result<Control, Stop>
        ensures { (index : Index) (known : List Entry) → KeptFrom index known
            (pushes index known self.old frame expr)
            (load self.old + (weight frame + 1)) result self.new }
    {
        self.push(frame)?;
        Ok(Control::Eval(expr))
    }

    /// Puts a frame on top, and stops for the value of a task.
    pub fn need(&mut self, frame: Frame, task: Task) -> Result<Control, Stop>
        ensures { (index : Index) (known : List Entry) → KeptFrom index known
            (needs index known self.old frame task) (load self.old + (weight frame + 6)) result self.new }
    {
        self.push(frame)?;
        Err(Stop::Need(task))
    }

    /// Begins a turn, puts a frame on top, and evaluates an expression.
    pub fn turn_eval(&mut self, alloc: Global, frame: Frame, expr: u32) -> Result<Control, Stop>
        ensures { (index : Index) (known : List Entry) → KeptFrom index known
            (turn (here_of self.old.here) self.old.turns (λ u n.
            meaning_over index known (with_turns self.old n) (control.Eval expr)
            (onto index known frame (after_of index known self.old)))) (load self.old) result self.new }
    {
        if self.spend() {
            self.push_eval(frame, expr)
        } else {
            Err(self.spent(alloc))
        }
    }

    /// Begins a turn, and gives a value.
    pub fn turn_gives(&mut self, alloc: Global, value: Value) -> Result<Control, Stop>
        ensures { (index : Index) (known : List Entry) → KeptFrom index known
            (turn (here_of self.old.here) self.old.turns (λ u n. gives_of index known self.old value n))
            (load self.old) result self.new }
    {
        if self.spend() {
            Ok(Control::Gives(value))
        } else {
            Err(self.spent(alloc))
        }
    }

    /// Begins a turn, puts a frame on top, and stops for the value of a task.
    pub fn turn_need(&mut self, alloc: Global, frame: Frame, task: Task) -> Result<Control, Stop>
        ensures { (index : Index) (known : List Entry) → KeptFrom index known
            (turn (here_of self.old.here) self.old.turns (λ u n. needs index known (with_turns self.old n) frame task))
            (load self.old + 1) result self.new }
    {
        if self.spend() {
            self.need(frame, task)
        } else {
            Err(self.spent(alloc))
        }
    }
}
