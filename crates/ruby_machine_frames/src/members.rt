ghost use Rattle.std.specs.Prelude.{◌≡◌, [], ◌∷◌, MatchOption};
ghost use Rattle.ruby_nodes.specs.Entries.{entry_at};

use ruby_nodes::{Node, NodeTable};

/// The first item or argument from a node on, and the node of the others.
pub fn first_item(nodes: &NodeTable, at: u32) -> Option<(u32, u32)>
    ensures { MatchOption result ((entry_at nodes.now at).items ≡ [])
        (λ p. (entry_at nodes.now at).items ≡ (entry_at nodes.now p.0).expr ∷ (entry_at nodes.now p.1).items) }
{
    let Some(node) = nodes.node(at) else {
        return None;
    };
    match node {
        Node::Item(first, rest) => Some((*first, *rest)),
        _ => None,
    }
}

/// The first pair of a hash literal from a node on: its key, its value and the node of the others.
pub fn first_pair(nodes: &NodeTable, at: u32) -> Option<(u32, u32, u32)>
    ensures { MatchOption result ((entry_at nodes.now at).pairs ≡ [])
        (λ p. (entry_at nodes.now at).pairs ≡
        ((entry_at nodes.now p.0).expr, (entry_at nodes.now p.1).expr) ∷ (entry_at nodes.now p.2).pairs) }
{
    let Some(node) = nodes.node(at) else {
        return None;
    };
    match node {
        Node::Pair(key, value, rest) => Some((*key, *value, *rest)),
        _ => None,
    }
}

/// The first arm of an `if` from a node on: its condition, its statements and the node of the others.
pub fn first_arm(nodes: &NodeTable, at: u32) -> Option<(u32, u32, u32)>
    ensures { MatchOption result ((entry_at nodes.now at).arms ≡ [])
        (λ p. (entry_at nodes.now at).arms ≡
        ((entry_at nodes.now p.0).expr, (entry_at nodes.now p.1).body) ∷ (entry_at nodes.now p.2).arms) }
{
    let Some(node) = nodes.node(at) else {
        return None;
    };
    match node {
        Node::Arm(test, body, rest) => Some((*test, *body, *rest)),
        _ => None,
    }
}
