ghost use Rattle.std.specs.Prelude.{◌+◌, [], List};
ghost use Rattle.program_places.specs.Places.{Index};
ghost use Rattle.ruby_machine_frames.specs.declared.frames.Frame.TheVariants as frame;
ghost use Rattle.ruby_machine_frames.specs.Rest.{KeptFrom, load};
ghost use Rattle.ruby_machine_values.specs.Beginning.{begins, handed};
ghost use Rattle.ruby_machine_collections.specs.Collecting.{items_left};

use ruby_machine_frames::{Control, Core, Frame, Stop, first_item};
use ruby_machine_values::made;
use ruby_nodes::NodeTable;
use ruby_types::{Items, Value};
use std::alloc::Global;

/// Goes on with the items of an array from a node on, behind those that are done.
fn next_item(
    core: &mut Core,
    alloc: Global,
    nodes: &NodeTable,
    more: u32,
    done: Items,
) -> Result<Control, Stop>
    ensures { (index : Index) → KeptFrom index nodes.now (items_left index nodes.now more done core.old)
        (load core.old + 9) result core.new }
{
    match first_item(nodes, more) {
        Some((first, others)) => core.push_eval(Frame::Items(others, done), first),
        None => made(core, alloc, Value::Array(done)),
    }
}

/// Begins an array literal, by the node of its first item.
pub fn begin_array(
    core: &mut Core,
    alloc: Global,
    nodes: &NodeTable,
    first: u32,
) -> Result<Control, Stop>
    ensures { (index : Index) → KeptFrom index nodes.now (begins (items_left index nodes.now first []) core.old)
        (load core.old) result core.new }
{
    if core.spend() {
        next_item(core, alloc, nodes, first, Items::new(alloc))
    } else {
        Err(core.spent(alloc))
    }
}

/// Takes an item of an array.
pub fn give_item(
    core: &mut Core,
    alloc: Global,
    nodes: &NodeTable,
    more: u32,
    mut done: Items,
    item: Value,
) -> Result<Control, Stop>
    ensures { (index : Index) → KeptFrom index nodes.now (handed index nodes.now core.old (frame.Items more done) item)
        (load core.old + 9) result core.new }
{
    done.push(item)?;
    next_item(core, alloc, nodes, more, done)
}
