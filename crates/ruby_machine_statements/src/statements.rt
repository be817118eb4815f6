ghost use Rattle.std.specs.Prelude.{◌≡◌, ◌+◌, List};
ghost use Rattle.ruby_types.specs.declared.value.Value.TheVariants.{Nil};
ghost use Rattle.program_places.specs.Places.{Index};
ghost use Rattle.ruby_nodes.specs.Entries.{Entry};
ghost use Rattle.ruby_runs.specs.Doing.{turn};
ghost use Rattle.ruby_machine_names.specs.Steps.{here_of};
ghost use Rattle.ruby_machine_frames.specs.declared.frames.Control.TheVariants as control;
ghost use Rattle.ruby_machine_frames.specs.Rest.{Kept, KeptFrom, load, with_turns};
ghost use Rattle.ruby_machine_statements.specs.Arms.{arms_meaning, if_of, returns_of, statement_meaning};

use crate::node::{Statement, statement_at};
use lists::Copying;
use program_lookups::Lookups;
use ruby_machine_frames::{Control, Core, Frame, Stop, first_arm};
use ruby_nodes::NodeTable;
use ruby_types::Value;
use std::alloc::Global;

/// Runs the statements from a node on, behind one that gave a value. Each begins a turn but an expression alone.
pub fn run_statements<P: Lookups>(
    core: &mut Core,
    alloc: Global,
    program: &P,
    at: u32,
    last: Value,
) -> Result<Control, Stop>
    ensures { Kept (P.index program.now) (P.entries program.now) core.old (control.Runs at last) result core.new }
{
    let nodes = program.nodes();
    match statement_at(nodes, at) {
        None => Ok(Control::Gives(last)),
        Some(statement) => run_statement(core, alloc, nodes, statement),
    }
}

/// Begins a statement.
fn run_statement(
    core: &mut Core,
    alloc: Global,
    nodes: &NodeTable,
    statement: Statement<'_>,
) -> Result<Control, Stop>
    ensures { (index : Index) → KeptFrom index nodes.now (statement_meaning index nodes.now core.old statement.entry)
        (load core.old + 6) result core.new }
{
    match statement {
        Statement::Expr(expr, next) => core.push_eval(Frame::Then(next), expr),
        Statement::Set(name, expr, next) => {
            let frame = Frame::Set(name.copy()?, next);
            core.turn_eval(alloc, frame, expr)
        }
        Statement::SetIvar(name, expr, next) => {
            let frame = Frame::SetIvar(name.copy()?, next);
            core.turn_eval(alloc, frame, expr)
        }
        Statement::Return(expr, _) => core.turn_eval(alloc, Frame::Return, expr),
        Statement::ReturnNil(_) => returns_nil(core, alloc),
        Statement::Raise(expr, _) => core.turn_eval(alloc, Frame::Raise, expr),
        Statement::If(arms, other, _, next) => begin_if(core, alloc, nodes, arms, other, next),
    }
}

/// `return` alone gives nil.
fn returns_nil(core: &mut Core, alloc: Global) -> Result<Control, Stop>
    ensures { (index : Index) (known : List Entry) → KeptFrom index known
        (turn (here_of core.old.here) core.old.turns (λ u n. returns_of index known (with_turns core.old n) Nil))
        (load core.old) result core.new }
{
    if core.spend() {
        Ok(Control::Returns(Value::Nil))
    } else {
        Err(core.spent(alloc))
    }
}

/// Begins an `if`: the statements behind it wait until one of its branches gave a value.
fn begin_if(
    core: &mut Core,
    alloc: Global,
    nodes: &NodeTable,
    arms: u32,
    other: u32,
    next: u32,
) -> Result<Control, Stop>
    ensures { (index : Index) → KeptFrom index nodes.now
        (turn (here_of core.old.here) core.old.turns (λ u n.
        if_of index nodes.now arms other next (with_turns core.old n)))
        (load core.old + 6) result core.new }
{
    if core.spend() {
        core.push(Frame::Then(next))?;
        first_branch(core, nodes, arms, other)
    } else {
        Err(core.spent(alloc))
    }
}

/// Evaluates the condition of the first arm from a node on. Where there is none, runs what stands behind `else`.
pub fn first_branch(
    core: &mut Core,
    nodes: &NodeTable,
    arms: u32,
    other: u32,
) -> Result<Control, Stop>
    ensures { (index : Index) → KeptFrom index nodes.now (arms_meaning index nodes.now core.old arms other)
        (load core.old + 7) result core.new }
{
    match first_arm(nodes, arms) {
        Some((test, taken, rest)) => core.push_eval(Frame::Branch(taken, rest, other), test),
        None => Ok(Control::Runs(other, Value::Nil)),
    }
}
