use crate::value::{CPath, Text, TextList};
use lists::Listed;
use sqlite_items::Boxed;

/// Expressions in text order: the members of an array or the arguments of a call.
pub type Exprs = Listed<Expr>;

/// The pairs of a hash literal: key and value.
pub type ExprPairs = Listed<(Expr, Expr)>;

/// The pieces of a text. No two plain ones stand side by side and none is empty.
pub type Parts = Listed<Part>;

/// Statements in text order.
pub type Stmts = Listed<Stmt>;

/// The arms of an `if`: each condition with its statements.
pub type Arms = Listed<(Expr, Stmts)>;

/// Definitions in text order.
pub type Defs = Listed<Def>;

/// A constant as it is written: `::A::B` has `top`.
#[derive(Drop)]
pub struct ConstRef {
    pub top: bool,
    pub path: CPath,
}

/// An expression. `a != b` is a Not of the call `==`, `-e` the call `-@`, `a[b]` the call `[]`.
#[cycle(expr)]
#[derive(Drop)]
pub enum Expr {
    Nil,
    True,
    False,
    SelfRef,
    Int(i64),
    Str(Parts),
    Sym(Text),
    Local(Text),
    Ivar(Text),
    Const(ConstRef),
    Array(Exprs),
    Hash(ExprPairs),
    Call {
        on: Option<Boxed<Expr>>,
        name: Text,
        args: Exprs,
    },
    Not(Boxed<Expr>),
    And(Boxed<Expr>, Boxed<Expr>),
    Or(Boxed<Expr>, Boxed<Expr>),
    Choose(Boxed<Expr>, Boxed<Expr>, Boxed<Expr>),
}

/// A piece of a text.
#[cycle(expr)]
#[derive(Drop)]
pub enum Part {
    Plain(Text),
    /// `#{..}` inside a text in double quotes.
    Inside(Expr),
}

/// A statement. `unless` is an If of a Not.
#[derive(Drop)]
pub enum Stmt {
    Expr(Expr),
    Set {
        name: Text,
        value: Expr,
    },
    SetIvar {
        name: Text,
        value: Expr,
    },
    Return(Option<Expr>),
    Raise(Expr),
    /// `after` is true exactly where the `if` stands behind its one statement.
    If {
        arms: Arms,
        other: Stmts,
        after: bool,
    },
}

/// A definition of a file, a module or a class.
#[derive(Drop)]
pub enum Def {
    Module {
        path: CPath,
        body: Defs,
    },
    Class {
        path: CPath,
        parent: Option<ConstRef>,
        body: Defs,
    },
    Assign {
        name: Text,
        value: Expr,
    },
    /// `single` is true of `def self.name`.
    Method {
        single: bool,
        name: Text,
        params: TextList,
        body: Stmts,
    },
    Include(ConstRef),
    Readers(TextList),
}

/// The definitions of a file, in text order.
#[derive(Drop)]
pub struct FileTree {
    pub defs: Defs,
}
