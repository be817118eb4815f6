ghost use Rattle.std.specs.Prelude.{◌+◌, [], List};
ghost use Rattle.program_places.specs.Places.{Index};
ghost use Rattle.ruby_nodes.specs.Entries.{Entry};
ghost use Rattle.ruby_machine_frames.specs.declared.frames.Frame.TheVariants as frame;
ghost use Rattle.ruby_machine_frames.specs.Rest.{KeptFrom, load};
ghost use Rattle.ruby_machine_values.specs.Beginning.{begins, handed};
ghost use Rattle.ruby_machine_collections.specs.Collecting.{pairs_left};

use ruby_builtin_keys::merged;
use ruby_machine_frames::{Control, Core, Frame, Stop, first_pair, push};
use ruby_machine_values::made;
use ruby_nodes::NodeTable;
use ruby_types::Value;
use std::alloc::Global;

/// Goes on with the pairs of a hash literal from a node on, behind those that are done. They become one hash at their
/// end.
fn next_pair(
    core: &mut Core,
    alloc: Global,
    nodes: &NodeTable,
    more: u32,
    done: Vec<(Value, Value)>,
) -> Result<Control, Stop>
    ensures { (index : Index) → KeptFrom index nodes.now (pairs_left index nodes.now more done.items core.old)
        (load core.old + 9) result core.new }
{
    match first_pair(nodes, more) {
        Some((key, value, others)) => core.push_eval(Frame::Key(value, others, done), key),
        None => {
            let pairs = merged(alloc, &[], done.as_slice())?;
            made(core, alloc, Value::Hash(pairs))
        }
    }
}

/// Begins a hash literal, by the node of its first pair.
pub fn begin_hash(
    core: &mut Core,
    alloc: Global,
    nodes: &NodeTable,
    first: u32,
) -> Result<Control, Stop>
    ensures { (index : Index) → KeptFrom index nodes.now (begins (pairs_left index nodes.now first []) core.old)
        (load core.old) result core.new }
{
    if core.spend() {
        next_pair(core, alloc, nodes, first, Vec::new(alloc))
    } else {
        Err(core.spent(alloc))
    }
}

/// Takes a key of a hash literal, whose value is next.
pub fn give_key(
    core: &mut Core,
    value: u32,
    more: u32,
    done: Vec<(Value, Value)>,
    key: Value,
) -> Result<Control, Stop>
    ensures { (index : Index) (known : List Entry) →
        KeptFrom index known (handed index known core.old (frame.Key value more done) key)
        (load core.old + 9) result core.new }
{
    core.push_eval(Frame::Pair(key, more, done), value)
}

/// Takes a value of a hash literal, with its key.
pub fn give_pair(
    core: &mut Core,
    alloc: Global,
    nodes: &NodeTable,
    key: Value,
    more: u32,
    mut done: Vec<(Value, Value)>,
    value: Value,
) -> Result<Control, Stop>
    ensures { (index : Index) → KeptFrom index nodes.now
        (handed index nodes.now core.old (frame.Pair key more done) value) (load core.old + 9) result core.new }
{
    push(&mut done, (key, value))?;
    next_pair(core, alloc, nodes, more, done)
}
