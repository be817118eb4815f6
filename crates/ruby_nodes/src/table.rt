ghost use Rattle.std.specs.Prelude.{◌≡◌, [], ◌∷◌, ◌++◌, length, MatchOption, IfOk, IfSome, OnErr};
ghost use Rattle.ruby_nodes.specs.Entries.{Below, Extends, Stands, entry_at, entry_of, no_entry};

use ruby_types::{ConstRef, Text};
use std::alloc::{AllocError, Global};
use std::marker::Model;

/// One level of a tree, whose children are nodes before it.
#[derive(Drop)]
pub enum Node {
    Nil,
    True,
    False,
    SelfRef,
    Int(i64),
    /// A text, by the first of its pieces.
    Str(u32),
    Sym(Text),
    Local(Text),
    Ivar(Text),
    Const(ConstRef),
    /// An array, by the first of its items.
    Array(u32),
    /// A hash, by the first of its pairs.
    Hash(u32),
    /// A call on self: its name, and the first of its arguments.
    OwnCall(Text, u32),
    /// A call on a receiver: this, its name, and the first of its arguments.
    Call(u32, Text, u32),
    Not(u32),
    And(u32, u32),
    Or(u32, u32),
    Choose(u32, u32, u32),
    /// An item or argument, and those after it.
    Item(u32, u32),
    /// A key, its value, and the pairs after them.
    Pair(u32, u32, u32),
    /// A plain piece of a text, and those after it.
    Plain(Text, u32),
    /// An inside piece of a text, and those after it.
    Inside(u32, u32),
    /// An expression as a statement, and those after it.
    Expr(u32, u32),
    /// An assignment of a local, and the statements after it.
    Set(Text, u32, u32),
    /// An assignment of an instance variable, and the statements after it.
    SetIvar(Text, u32, u32),
    /// A `return` of an expression, and the statements after it.
    Return(u32, u32),
    /// A `return` alone, and the statements after it.
    ReturnNil(u32),
    Raise(u32, u32),
    /// An `if`: its first arm, its other statements, whether it stands behind its statement, and the statements after.
    If(u32, u32, bool, u32),
    /// A condition, its statements, and the arms after them.
    Arm(u32, u32, u32),
    /// The end of a list.
    End,
}

/// Nodes in a row. Contracts see for each the tree or list that it stands for.
#[derive(Drop)]
pub struct NodeTable {
    nodes: Vec<Node>,
}

impl Model for NodeTable {
    ghost use Rattle.std.specs.Prelude.{List};
    ghost use Rattle.std.specs.Coded.{codes};
    ghost use Rattle.ruby_nodes.specs.Entries.{Entry, entries, BelowAll};
    ghost use Rattle.ruby_types.specs.contracts.tree.Expr as expr;
    ghost use Rattle.ruby_types.specs.contracts.tree.Part as part;
    ghost use Rattle.ruby_types.specs.contracts.tree.Stmt as stmt;

    ghost Value = { List Entry };

    ghost coded = { Prim.hlevel (codes, expr.the_row.coded, part.the_row.coded, stmt.the_row.coded) };

    ghost view = { λ table. entries table.nodes.items };

    ghost invariant = { λ table. BelowAll 0 table.nodes.items };
}

impl NodeTable {
    /// The table without nodes, which takes no memory.
    pub fn new(alloc: Global) -> NodeTable
        ensures { result ≡ [] }
    {
        NodeTable {
            nodes: Vec::new(alloc),
        }
    }

    /// Adds a node at the end and gives its number. Where memory or numbers run out, the table is as it was.
    pub fn push(&mut self, node: Node) -> Result<u32, AllocError>
        requires { Below (length self.old) node }
        ensures extends { Extends self.old self.new }
        ensures stands { IfOk result (λ at. Stands self.new at (entry_of self.old node)) }
        ensures err { OnErr result (self.new ≡ self.old) }
    {
        let Ok(at) = u32::try_from(self.nodes.len()) else {
            return Err(AllocError);
        };
        self.nodes.push(node)?;
        Ok(at)
    }

    /// The node of this number, if there is one. Its children have lower numbers.
    pub fn node(&self, at: u32) -> Option<&Node>
        ensures children { IfSome result (λ node. Below at node.now) }
        ensures stands { MatchOption result (entry_at self.now at ≡ no_entry)
            (λ node. entry_at self.now at ≡ entry_of self.now node.now) }
    {
        let at = at as usize;
        if at < self.nodes.len() {
            Some(&self.nodes[at])
        } else {
            None
        }
    }
}
