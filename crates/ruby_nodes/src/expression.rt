ghost use Rattle.std.specs.Prelude.{◌≡◌, [], ◌∷◌, ◌++◌, IfOk};
ghost use Rattle.ruby_nodes.specs.Entries.{Extends, IsThere, Stands, an_expr, items_entry, pairs_entry};
ghost use Rattle.ruby_nodes.specs.Entries.{part_before, parts_entry};

use crate::table::{Node, NodeTable};
use lists::Copying;
use ruby_types::{ConstRef, Expr, Part};
use std::alloc::AllocError;

fn copy_const(constant: &ConstRef) -> Result<ConstRef, AllocError>
    ensures { IfOk result (λ copied. copied ≡ constant.now) }
{
    Ok(ConstRef {
        top: constant.top,
        path: constant.path.copy()?,
    })
}

/// Adds the nodes of an expression, and gives its own number. Numbers and memory may run out.
#[cycle(push_expr)]
pub fn push_expr(table: &mut NodeTable, expr: &Expr) -> Result<u32, AllocError>
    ensures extends { Extends table.old table.new }
    ensures stands { IfOk result (λ at. Stands table.new at (an_expr expr.now)) }
{
    match expr {
        Expr::Nil => table.push(Node::Nil),
        Expr::True => table.push(Node::True),
        Expr::False => table.push(Node::False),
        Expr::SelfRef => table.push(Node::SelfRef),
        Expr::Int(number) => table.push(Node::Int(*number)),
        Expr::Str(parts) => {
            let first = push_parts(table, parts.as_slice())?;
            table.push(Node::Str(first))
        }
        Expr::Sym(name) => table.push(Node::Sym(name.copy()?)),
        Expr::Local(name) => table.push(Node::Local(name.copy()?)),
        Expr::Ivar(name) => table.push(Node::Ivar(name.copy()?)),
        Expr::Const(constant) => table.push(Node::Const(copy_const(constant)?)),
        Expr::Array(items) => {
            let first = push_items(table, items.as_slice())?;
            table.push(Node::Array(first))
        }
        Expr::Hash(pairs) => {
            let first = push_pairs(table, pairs.as_slice())?;
            table.push(Node::Hash(first))
        }
        Expr::Call {
            on: None,
            name,
            args,
        } => {
            let first = push_items(table, args.as_slice())?;
            table.push(Node::OwnCall(name.copy()?, first))
        }
        Expr::Call {
            on: Some(on),
            name,
            args,
        } => {
            let (on, first) = push_call(table, on.get(), args.as_slice())?;
            table.push(Node::Call(on, name.copy()?, first))
        }
        Expr::Not(inner) => {
            let inner = push_expr(table, inner.get())?;
            table.push(Node::Not(inner))
        }
        Expr::And(left, right) => {
            let (left, right) = push_two(table, left.get(), right.get())?;
            table.push(Node::And(left, right))
        }
        Expr::Or(left, right) => {
            let (left, right) = push_two(table, left.get(), right.get())?;
            table.push(Node::Or(left, right))
        }
        Expr::Choose(test, taken, other) => {
            let (test, taken, other) = push_three(table, test.get(), taken.get(), other.get())?;
            table.push(Node::Choose(test, taken, other))
        }
    }
}

#[cycle(push_expr)]
fn push_two(table: &mut NodeTable, left: &Expr, right: &Expr) -> Result<(u32, u32), AllocError>
    ensures extends { Extends table.old table.new }
    ensures left { IfOk result (λ at. Stands table.new at.0 (an_expr left.now)) }
    ensures right { IfOk result (λ at. Stands table.new at.1 (an_expr right.now)) }
{
    let left = push_expr(table, left)?;
    let right = push_expr(table, right)?;
    Ok((left, right))
}

#[cycle(push_expr)]
fn push_three(
    table: &mut NodeTable,
    test: &Expr,
    taken: &Expr,
    other: &Expr,
) -> Result<(u32, u32, u32), AllocError>
    ensures extends { Extends table.old table.new }
    ensures test { IfOk result (λ at. Stands table.new at.0 (an_expr test.now)) }
    ensures taken { IfOk result (λ at. Stands table.new at.1 (an_expr taken.now)) }
    ensures other { IfOk result (λ at. Stands table.new at.2 (an_expr other.now)) }
{
    let test = push_expr(table, test)?;
    let (taken, other) = push_two(table, taken, other)?;
    Ok((test, taken, other))
}

#[cycle(push_expr)]
fn push_call(table: &mut NodeTable, on: &Expr, args: &[Expr]) -> Result<(u32, u32), AllocError>
    ensures extends { Extends table.old table.new }
    ensures on { IfOk result (λ at. Stands table.new at.0 (an_expr on.now)) }
    ensures args { IfOk result (λ at. Stands table.new at.1 (items_entry args.now)) }
{
    let on = push_expr(table, on)?;
    let args = push_items(table, args)?;
    Ok((on, args))
}

/// Adds the nodes of items or arguments, and gives the number of the first.
#[cycle(push_expr)]
pub fn push_items(table: &mut NodeTable, items: &[Expr]) -> Result<u32, AllocError>
    ensures extends { Extends table.old table.new }
    ensures stands { IfOk result (λ at. Stands table.new at (items_entry items.now)) }
{
    let mut next = table.push(Node::End)?;
    for place in (0..items.len()).rev() {
        let item = push_expr(table, &items[place])?;
        next = table.push(Node::Item(item, next))?;
    }
    Ok(next)
}

/// Adds the nodes of the pairs of a hash, and gives the number of the first.
#[cycle(push_expr)]
pub fn push_pairs(table: &mut NodeTable, pairs: &[(Expr, Expr)]) -> Result<u32, AllocError>
    ensures extends { Extends table.old table.new }
    ensures stands { IfOk result (λ at. Stands table.new at (pairs_entry pairs.now)) }
{
    let mut next = table.push(Node::End)?;
    for place in (0..pairs.len()).rev() {
        let (key, value) = push_two(table, &pairs[place].0, &pairs[place].1)?;
        next = table.push(Node::Pair(key, value, next))?;
    }
    Ok(next)
}

/// Adds the nodes of the pieces of a text, and gives the number of the first.
#[cycle(push_expr)]
pub fn push_parts(table: &mut NodeTable, parts: &[Part]) -> Result<u32, AllocError>
    ensures extends { Extends table.old table.new }
    ensures stands { IfOk result (λ at. Stands table.new at (parts_entry parts.now)) }
{
    let mut next = table.push(Node::End)?;
    for place in (0..parts.len()).rev() {
        next = push_part(table, &parts[place], next)?;
    }
    Ok(next)
}

/// Adds the nodes of a piece that is followed by others.
#[cycle(push_expr)]
fn push_part(table: &mut NodeTable, part: &Part, next: u32) -> Result<u32, AllocError>
    requires { IsThere table.old next }
    ensures extends { Extends table.old table.new }
    ensures stands { IfOk result (λ at. Stands table.new at (part_before table.old part.now next)) }
{
    match part {
        Part::Plain(bytes) => table.push(Node::Plain(bytes.copy()?, next)),
        Part::Inside(inner) => {
            let inner = push_expr(table, inner)?;
            table.push(Node::Inside(inner, next))
        }
    }
}
