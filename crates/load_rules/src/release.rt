//! Trees are dropped by loops. A derived drop calls itself for each link of a chain, and a chain that opens no level,
//! as
//! `1 + 1 + 1` or `a ? 1 : b ? 2 : 3`, may have a million links.

use ruby_types::{Def, Expr, FileTree, Part, Stmt, Stmts};
use std::alloc::{AllocError, Global};

/// Puts the items onto a list. What there is no memory for is dropped.
fn move_all<T: Drop>(items: Vec<T>, waiting: &mut Vec<T>) -> Result<(), AllocError> {
    for item in items {
        waiting.push(item)?;
    }
    Ok(())
}

/// Drops an expression but for its parts, which go onto the list.
fn take_expression(expr: Expr, waiting: &mut Vec<Expr>) -> Result<(), AllocError> {
    match expr {
        Expr::Str(parts) => take_parts(parts.into_vec(), waiting),
        Expr::Array(members) => move_all(members.into_vec(), waiting),
        Expr::Hash(pairs) => {
            for (key, value) in pairs.into_vec() {
                waiting.push(key)?;
                waiting.push(value)?;
            }
            Ok(())
        }
        Expr::Call { on, name: _, args } => {
            if let Some(on) = on {
                waiting.push(on.into_inner())?;
            }
            move_all(args.into_vec(), waiting)
        }
        Expr::Not(value) => Ok(waiting.push(value.into_inner())?),
        Expr::And(first, last) | Expr::Or(first, last) => {
            waiting.push(first.into_inner())?;
            Ok(waiting.push(last.into_inner())?)
        }
        Expr::Choose(test, first, last) => {
            waiting.push(last.into_inner())?;
            waiting.push(first.into_inner())?;
            Ok(waiting.push(test.into_inner())?)
        }
        _ => Ok(()),
    }
}

/// The expressions inside a text go onto the list.
fn take_parts(parts: Vec<Part>, waiting: &mut Vec<Expr>) -> Result<(), AllocError> {
    for part in parts {
        if let Part::Inside(expr) = part {
            waiting.push(expr)?;
        }
    }
    Ok(())
}

/// Drops expressions part by part.
fn release_expressions(waiting: &mut Vec<Expr>) -> Result<(), AllocError> {
    for _ in 0..u64::MAX {
        match waiting.pop() {
            Some(expr) => take_expression(expr, waiting)?,
            None => break,
        }
    }
    Ok(())
}

/// The tests and the statements of an `if` go onto the lists.
fn take_arms(
    arms: Vec<(Expr, Stmts)>,
    waiting: &mut Vec<Stmt>,
    exprs: &mut Vec<Expr>,
) -> Result<(), AllocError> {
    for (test, body) in arms {
        exprs.push(test)?;
        move_all(body.into_vec(), waiting)?;
    }
    Ok(())
}

/// Drops a statement but for its parts, which go onto the lists.
fn take_statement(
    stmt: Stmt,
    waiting: &mut Vec<Stmt>,
    exprs: &mut Vec<Expr>,
) -> Result<(), AllocError> {
    match stmt {
        Stmt::Expr(expr) => Ok(exprs.push(expr)?),
        Stmt::Raise(expr) => Ok(exprs.push(expr)?),
        Stmt::Set { name: _, value } => Ok(exprs.push(value)?),
        Stmt::SetIvar { name: _, value } => Ok(exprs.push(value)?),
        Stmt::Return(given) => match given {
            Some(expr) => Ok(exprs.push(expr)?),
            None => Ok(()),
        },
        Stmt::If {
            arms,
            other,
            after: _,
        } => {
            take_arms(arms.into_vec(), waiting, exprs)?;
            move_all(other.into_vec(), waiting)
        }
    }
}

/// Drops statements part by part.
fn release_statements(alloc: Global, mut waiting: Vec<Stmt>) -> Result<(), AllocError> {
    let mut exprs = Vec::new(alloc);
    for _ in 0..u64::MAX {
        match waiting.pop() {
            Some(stmt) => take_statement(stmt, &mut waiting, &mut exprs)?,
            None => break,
        }
        release_expressions(&mut exprs)?;
    }
    Ok(())
}

/// Drops a definition but for the definitions inside it, which go onto the list.
fn take_definition(
    alloc: Global,
    definition: Def,
    waiting: &mut Vec<Def>,
) -> Result<(), AllocError> {
    match definition {
        Def::Module { path: _, body } => move_all(body.into_vec(), waiting),
        Def::Class {
            path: _,
            parent: _,
            body,
        } => move_all(body.into_vec(), waiting),
        Def::Assign { name: _, value } => {
            let mut exprs = Vec::new(alloc);
            exprs.push(value)?;
            release_expressions(&mut exprs)
        }
        Def::Method {
            single: _,
            name: _,
            params: _,
            body,
        } => release_statements(alloc, body.into_vec()),
        _ => Ok(()),
    }
}

/// Drops definitions part by part.
fn release_definitions(alloc: Global, mut waiting: Vec<Def>) -> Result<(), AllocError> {
    for _ in 0..u64::MAX {
        match waiting.pop() {
            Some(definition) => take_definition(alloc, definition, &mut waiting)?,
            None => break,
        }
    }
    Ok(())
}

/// Drops a tree without a call of itself, whatever its depth. Where there is no memory for the list of what waits, what
/// is left is dropped as derived.
pub fn release(alloc: Global, tree: FileTree) {
    let _ = release_definitions(alloc, tree.defs.into_vec());
}
