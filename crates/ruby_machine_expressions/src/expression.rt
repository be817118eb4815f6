ghost use Rattle.std.specs.Prelude.{◌≡◌};
ghost use Rattle.ruby_types.specs.declared.value.Value.TheVariants as value;
ghost use Rattle.ruby_machine_frames.specs.declared.frames.Control.TheVariants as control;
ghost use Rattle.ruby_machine_frames.specs.Rest.{Kept};

use crate::arguments::begin_own_call;
use lists::Copying;
use program_lookups::Lookups;
use ruby_machine_collections::{begin_array, begin_hash, begin_text};
use ruby_machine_frames::{Control, Core, Frame, Stop};
use ruby_machine_operators::begin_constant;
use ruby_machine_state::{local, variable};
use ruby_nodes::Node;
use ruby_types::Value;
use std::alloc::Global;

/// The value of an integer literal.
fn integer(number: &i64) -> Value
    ensures { result ≡ value.Int number.now }
{
    Value::Int(*number)
}

/// Evaluates the expression of a node. What is no expression is nil.
pub fn eval<P: Lookups>(
    core: &mut Core,
    alloc: Global,
    program: &P,
    at: u32,
) -> Result<Control, Stop>
    ensures { Kept (P.index program.now) (P.entries program.now) core.old (control.Eval at) result core.new }
{
    let nodes = program.nodes();
    let Some(node) = nodes.node(at) else {
        return core.turn_gives(alloc, Value::Nil);
    };
    match node {
        Node::True => core.turn_gives(alloc, Value::True),
        Node::False => core.turn_gives(alloc, Value::False),
        Node::Int(number) => core.turn_gives(alloc, integer(number)),
        Node::Sym(name) => core.turn_gives(alloc, Value::Sym(name.copy()?)),
        Node::SelfRef => {
            let itself = core.state.itself.copy()?;
            core.turn_gives(alloc, itself)
        }
        Node::Local(name) => {
            let value = local(core.state.locals.as_slice(), name)?;
            core.turn_gives(alloc, value)
        }
        Node::Ivar(name) => {
            let value = variable(&core.state.itself, name)?;
            core.turn_gives(alloc, value)
        }
        Node::Const(constant) => begin_constant(core, alloc, program, constant),
        Node::Not(operand) => core.turn_eval(alloc, Frame::Not, *operand),
        Node::And(left, right) => core.turn_eval(alloc, Frame::And(*right), *left),
        Node::Or(left, right) => core.turn_eval(alloc, Frame::Or(*right), *left),
        Node::Choose(test, taken, other) => {
            core.turn_eval(alloc, Frame::Choose(*taken, *other), *test)
        }
        Node::Str(first) => begin_text(core, alloc, nodes, *first),
        Node::Array(first) => begin_array(core, alloc, nodes, *first),
        Node::Hash(first) => begin_hash(core, alloc, nodes, *first),
        Node::Call(on, name, first) => {
            core.turn_eval(alloc, Frame::Receiver(name.copy()?, *first), *on)
        }
        Node::OwnCall(name, first) => begin_own_call(core, alloc, program, name, *first),
        _ => core.turn_gives(alloc, Value::Nil),
    }
}
