ghost use Rattle.std.specs.Prelude.{◌≡◌};

use ruby_machine_names::{Failure, HereCode, NameWait};
use ruby_machine_state::StateCode;
use ruby_types::{CPath, Items, RubyError, Task, Text, Value};
use std::alloc::AllocError;

/// The place that a method was called from.
#[derive(Drop)]
pub struct Caller {
    pub here: HereCode,
    pub state: StateCode,
    pub left: u32,
}

/// What waits for a value. A number is a node's.
#[derive(Drop)]
pub enum Frame {
    Not,
    And(u32),
    Or(u32),
    /// The branches of `? :`.
    Choose(u32, u32),
    /// An array: the items left, and those that are done.
    Items(u32, Items),
    /// The key of a hash literal: its value, the pairs left, and those that are done.
    Key(u32, u32, Vec<(Value, Value)>),
    /// The value of a hash literal: its key, the pairs left, and those that are done.
    Pair(Value, u32, Vec<(Value, Value)>),
    /// An inside part of a text: the parts left, and the bytes so far.
    Inside(u32, Vec<u8>),
    /// The receiver of a call: its name, and the first of its arguments.
    Receiver(Text, u32),
    /// An argument: the receiver, the name, the arguments left, and those that are done.
    Args(Value, Text, u32, Items),
    /// The names of a constant.
    Names(NameWait),
    /// A call on a class waits for its ancestors: its path, the name and the arguments.
    Singleton(CPath, Text, Items),
    /// A call on an object waits for the ancestors of its class.
    Instance(Value, Text, Items),
    /// `new` waits for the ancestors of the class.
    Initialize(CPath, Items),
    /// An expression as a statement: the statements behind it.
    Then(u32),
    /// An assignment: the statements behind it.
    Set(Text, u32),
    SetIvar(Text, u32),
    Return,
    Raise,
    /// The condition of an arm: its statements, the arms left, and those behind `else`.
    Branch(u32, u32, u32),
    /// The end of a method.
    Leave(Caller),
    /// The end of `initialize`.
    LeaveNew(Caller),
}

/// What the machine does next.
#[derive(Drop)]
pub enum Control {
    /// Evaluates an expression.
    Eval(u32),
    /// Hands a value to the frame on top.
    Gives(Value),
    /// Runs statements, behind one that gave a value.
    Runs(u32, Value),
    /// Returns from a method.
    Returns(Value),
}

/// Why a machine stops.
#[derive(Drop)]
pub enum Stop {
    Done(Value),
    Raised(RubyError),
    Need(Task),
    Memory,
}

impl From<AllocError> for Stop {
    ghost use Rattle.ruby_machine_frames.specs.declared.frames.Stop.{Stop};

    ghost from_gives = { λ e s. s ≡ Stop.Memory };

    fn from(_: AllocError) -> Stop {
        Stop::Memory
    }
}

impl From<Failure> for Stop {
    ghost use Rattle.ruby_machine_frames.specs.Stops.{stop_of};

    ghost from_gives = { λ e s. s ≡ stop_of e };

    fn from(failure: Failure) -> Stop {
        match failure {
            Failure::Raised(error) => Stop::Raised(error),
            Failure::Memory => Stop::Memory,
        }
    }
}
