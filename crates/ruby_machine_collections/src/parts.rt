ghost use Rattle.std.specs.Prelude.{◌≡◌, ◌∷◌, [], IfSome, true};
ghost use Rattle.ruby_nodes.specs.Entries.{entry_at};
ghost use Rattle.ruby_types.specs.declared.tree.Part.TheVariants as part;
ghost use Rattle.ruby_machine_collections.specs.Collecting.{PartIs};

use ruby_nodes::{Node, NodeTable};
use ruby_types::Text;

/// The first part of a text from a node on, with the node of the others.
#[derive(Drop)]
pub enum FirstPart<'a> {
    Plain(&'a Text, u32),
    /// An inside part, by the node of its expression.
    Inside(u32, u32),
    End,
}

/// Looks at the part of a text that a node is.
pub fn first_part(nodes: &NodeTable, at: u32) -> FirstPart<'_>
    ensures { PartIs nodes.now at result }
{
    let Some(node) = nodes.node(at) else {
        return FirstPart::End;
    };
    match node {
        Node::Plain(bytes, others) => FirstPart::Plain(bytes, *others),
        Node::Inside(expr, others) => FirstPart::Inside(*expr, *others),
        _ => FirstPart::End,
    }
}

/// The bytes of a text that is one plain part.
pub fn only_plain(nodes: &NodeTable, first: u32) -> Option<&Text>
    ensures { IfSome result (λ bytes. (entry_at nodes.now first).parts ≡ part.Plain bytes.now ∷ []) }
{
    match first_part(nodes, first) {
        FirstPart::Plain(bytes, others) => {
            if is_end(nodes, others) {
                Some(bytes)
            } else {
                None
            }
        }
        _ => None,
    }
}

fn is_end(nodes: &NodeTable, at: u32) -> bool
    ensures { result ≡ true → (entry_at nodes.now at).parts ≡ [] }
{
    match first_part(nodes, at) {
        FirstPart::End => true,
        _ => false,
    }
}
