ghost use Rattle.std.specs.Prelude.{◌≡◌, [], ◌∷◌, ◌++◌, IfOk};
ghost use Rattle.ruby_nodes.specs.Entries.{stmt_before};
ghost use Rattle.ruby_nodes.specs.Entries.{Extends, IsThere, Stands, arm_before, arms_entry, body_entry};
ghost use Rattle.ruby_types.specs.declared.tree.Stmt.TheVariants as stmt;

use crate::expression::push_expr;
use crate::table::{Node, NodeTable};
use lists::Copying;
use ruby_types::{Expr, Stmt, Stmts};
use std::alloc::AllocError;

/// Adds the nodes of statements, and gives the number of the first. Numbers and memory may run out.
#[cycle(push_body)]
pub fn push_body(table: &mut NodeTable, stmts: &[Stmt]) -> Result<u32, AllocError>
    ensures extends { Extends table.old table.new }
    ensures stands { IfOk result (λ at. Stands table.new at (body_entry stmts.now)) }
{
    let mut next = table.push(Node::End)?;
    for place in (0..stmts.len()).rev() {
        next = push_stmt(table, &stmts[place], next)?;
    }
    Ok(next)
}

/// Adds the nodes of arms, and gives the number of the first.
#[cycle(push_body)]
pub fn push_arms(table: &mut NodeTable, arms: &[(Expr, Stmts)]) -> Result<u32, AllocError>
    ensures extends { Extends table.old table.new }
    ensures stands { IfOk result (λ at. Stands table.new at (arms_entry arms.now)) }
{
    let mut next = table.push(Node::End)?;
    for place in (0..arms.len()).rev() {
        let (test, body) = &arms[place];
        next = push_arm(table, test, body.as_slice(), next)?;
    }
    Ok(next)
}

#[cycle(push_body)]
fn push_arm(table: &mut NodeTable, test: &Expr, body: &[Stmt], next: u32) -> Result<u32, AllocError>
    requires { IsThere table.old next }
    ensures extends { Extends table.old table.new }
    ensures stands { IfOk result (λ at. Stands table.new at (arm_before table.old test.now body.now next)) }
{
    let test = push_expr(table, test)?;
    let body = push_body(table, body)?;
    table.push(Node::Arm(test, body, next))
}

#[cycle(push_body)]
fn push_stmt(table: &mut NodeTable, stmt: &Stmt, next: u32) -> Result<u32, AllocError>
    requires { IsThere table.old next }
    ensures extends { Extends table.old table.new }
    ensures stands { IfOk result (λ at. Stands table.new at (stmt_before table.old stmt.now next)) }
{
    match stmt {
        Stmt::Expr(expr) => {
            let expr = push_expr(table, expr)?;
            table.push(Node::Expr(expr, next))
        }
        Stmt::Set { name, value } => {
            let value = push_expr(table, value)?;
            table.push(Node::Set(name.copy()?, value, next))
        }
        Stmt::SetIvar { name, value } => {
            let value = push_expr(table, value)?;
            table.push(Node::SetIvar(name.copy()?, value, next))
        }
        Stmt::Return(None) => table.push(Node::ReturnNil(next)),
        Stmt::Return(Some(value)) => {
            let value = push_expr(table, value)?;
            table.push(Node::Return(value, next))
        }
        Stmt::Raise(value) => {
            let value = push_expr(table, value)?;
            table.push(Node::Raise(value, next))
        }
        Stmt::If { arms, other, after } => push_if(
            table,
            arms.as_slice(),
            other.as_slice(),
            *after,
            next,
        ),
    }
}

#[cycle(push_body)]
fn push_if(
    table: &mut NodeTable,
    arms: &[(Expr, Stmts)],
    other: &[Stmt],
    after: bool,
    next: u32,
) -> Result<u32, AllocError>
    requires { IsThere table.old next }
    ensures extends { Extends table.old table.new }
    ensures stands { IfOk result
        (λ at. Stands table.new at (stmt_before table.old (stmt.If arms.now other.now after) next)) }
{
    let arms = push_arms(table, arms)?;
    let other = push_body(table, other)?;
    table.push(Node::If(arms, other, after, next))
}
