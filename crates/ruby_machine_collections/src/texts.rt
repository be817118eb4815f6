ghost use Rattle.std.specs.Prelude.{◌+◌, [], false, List};
ghost use Rattle.program_places.specs.Places.{Index};
ghost use Rattle.ruby_nodes.specs.Entries.{Entry};
ghost use Rattle.ruby_machine_frames.specs.declared.frames.Frame.TheVariants as frame;
ghost use Rattle.ruby_machine_frames.specs.Rest.{KeptFrom, load};
ghost use Rattle.ruby_machine_values.specs.Beginning.{begins, handed};
ghost use Rattle.ruby_machine_collections.specs.Collecting.{parts_left, text_left};

use crate::parts::{FirstPart, first_part, only_plain};
use lists::Copying;
use ruby_builtin_base::push_to_s;
use ruby_machine_frames::{Control, Core, Frame, Stop};
use ruby_machine_values::made;
use ruby_nodes::NodeTable;
use ruby_types::{Text, Value};
use std::alloc::Global;

/// Ends a text, which is made where a part of it was an inside one.
fn end_text(core: &mut Core, alloc: Global, inside: bool, bytes: Vec<u8>) -> Result<Control, Stop>
    ensures { (index : Index) (known : List Entry) →
        KeptFrom index known (text_left index known inside bytes.items core.old)
        (load core.old + 6) result core.new }
{
    let text = Value::Str(Text::from_vec(alloc, bytes)?);
    if inside {
        made(core, alloc, text)
    } else {
        Ok(Control::Gives(text))
    }
}

/// Goes on with the parts of a text from a node on, behind the bytes so far.
fn next_part(
    core: &mut Core,
    alloc: Global,
    nodes: &NodeTable,
    first: u32,
    inside: bool,
    mut bytes: Vec<u8>,
) -> Result<Control, Stop>
    ensures { (index : Index) → KeptFrom index nodes.now (parts_left index nodes.now first inside bytes.items core.old)
        (load core.old + 9) result core.new }
{
    let mut at = first;
    'parts: loop {
        match first_part(nodes, at) {
            FirstPart::Plain(plain, others) => {
                bytes.extend_from_slice(plain.as_bytes())?;
                at = others;
            }
            FirstPart::Inside(expr, others) => {
                return core.push_eval(Frame::Inside(others, bytes), expr);
            }
            FirstPart::End => return end_text(core, alloc, inside, bytes),
        }
    }
}

/// Begins a text, by the node of its first part. One that is a single plain part shares its bytes.
pub fn begin_text(
    core: &mut Core,
    alloc: Global,
    nodes: &NodeTable,
    first: u32,
) -> Result<Control, Stop>
    ensures { (index : Index) → KeptFrom index nodes.now (begins (parts_left index nodes.now first false []) core.old)
        (load core.old) result core.new }
{
    match only_plain(nodes, first) {
        Some(bytes) => core.turn_gives(alloc, Value::Str(bytes.copy()?)),
        None => begin_parts(core, alloc, nodes, first),
    }
}

fn begin_parts(
    core: &mut Core,
    alloc: Global,
    nodes: &NodeTable,
    first: u32,
) -> Result<Control, Stop>
    ensures { (index : Index) → KeptFrom index nodes.now (begins (parts_left index nodes.now first false []) core.old)
        (load core.old) result core.new }
{
    if core.spend() {
        next_part(core, alloc, nodes, first, false, Vec::new(alloc))
    } else {
        Err(core.spent(alloc))
    }
}

/// Takes the value of an inside part of a text.
pub fn give_inside(
    core: &mut Core,
    alloc: Global,
    nodes: &NodeTable,
    more: u32,
    mut bytes: Vec<u8>,
    value: Value,
) -> Result<Control, Stop>
    ensures { (index : Index) → KeptFrom index nodes.now
        (handed index nodes.now core.old (frame.Inside more bytes) value) (load core.old + 9) result core.new }
{
    push_to_s(alloc, &mut bytes, &value)?;
    next_part(core, alloc, nodes, more, true, bytes)
}
