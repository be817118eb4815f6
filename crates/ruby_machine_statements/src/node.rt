ghost use Rattle.std.specs.Prelude.{◌≡◌, [], MatchOption};
ghost use Rattle.ruby_nodes.specs.Entries.{entry_at, entry_of};
ghost use Rattle.ruby_machine_statements.specs.Nodes.{node_of};

use ruby_nodes::{Node, NodeTable};
use ruby_types::Text;

/// A statement, by the nodes of what stands in it, and last by that of the statements behind it.
#[derive(Clone, Copy)]
pub(crate) enum Statement<'a> {
    Expr(u32, u32),
    Set(&'a Text, u32, u32),
    SetIvar(&'a Text, u32, u32),
    Return(u32, u32),
    ReturnNil(u32),
    Raise(u32, u32),
    /// The first arm, the other statements, and whether the `if` stands behind its statement.
    If(u32, u32, bool, u32),
}

/// The first statement from a node on, if there is one.
pub(crate) fn statement_at(nodes: &NodeTable, at: u32) -> Option<Statement<'_>>
    ensures { MatchOption result ((entry_at nodes.now at).body ≡ [])
        (λ statement. (entry_at nodes.now at).body ≡ (entry_of nodes.now (node_of statement)).body) }
{
    let Some(node) = nodes.node(at) else {
        return None;
    };
    let statement = match node {
        Node::Expr(expr, next) => Statement::Expr(*expr, *next),
        Node::Set(name, expr, next) => Statement::Set(name, *expr, *next),
        Node::SetIvar(name, expr, next) => Statement::SetIvar(name, *expr, *next),
        Node::Return(expr, next) => Statement::Return(*expr, *next),
        Node::ReturnNil(next) => Statement::ReturnNil(*next),
        Node::Raise(expr, next) => Statement::Raise(*expr, *next),
        Node::If(arms, other, after, next) => Statement::If(*arms, *other, *after, *next),
        _ => return None,
    };
    Some(statement)
}
