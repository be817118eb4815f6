ghost use Rattle.std.specs.Prelude.{◌≡◌, ◌++◌, ◌∷◌, [], map, codes, IfOk, OnOk, if◌then◌else◌};
ghost use Rattle.std.specs.List.{flat_map};
ghost use Rattle.ruby_print.specs.Expressions as expressions;
ghost use Rattle.ruby_print.specs.Statements as spec;

use crate::expression::push_expression;
use crate::pieces::push_ivar;
use ruby_types::{Expr, Stmt, Stmts};
use std::alloc::{AllocError, Global};

/// What begins a line one level deeper.
pub fn deeper(alloc: Global, indent: &[u8]) -> Result<Vec<u8>, AllocError>
    ensures { IfOk result (λ spaces. spaces.items ≡ spec.deeper indent.now) }
{
    let mut spaces = Vec::new(alloc);
    spaces.extend_from_slice(b"  ")?;
    spaces.extend_from_slice(indent)?;
    Ok(spaces)
}

/// Statements, each on a line of its own.
#[cycle(statement)]
pub fn push_statements(
    alloc: Global,
    written: &mut Vec<u8>,
    indent: &[u8],
    statements: &[Stmt],
) -> Result<(), AllocError>
    ensures { OnOk result (written.new.items ≡ written.old.items ++ spec.statement_lines indent.now statements.now) }
{
    'statements: for statement in statements {
        written.extend_from_slice(indent)?;
        push_statement(alloc, written, indent, statement)?;
        written.push(b'\n')?;
    }
    Ok(())
}

/// A statement on a line that begins with these spaces.
#[cycle(statement)]
fn push_statement(
    alloc: Global,
    written: &mut Vec<u8>,
    indent: &[u8],
    statement: &Stmt,
) -> Result<(), AllocError>
    ensures { OnOk result (written.new.items ≡ written.old.items ++ spec.statement statement.now indent.now) }
{
    match statement {
        Stmt::Expr(expr) => push_expression(alloc, written, expr, false),
        Stmt::Set { name, value } => {
            written.extend_from_slice(name.as_bytes())?;
            push_value(alloc, written, value)
        }
        Stmt::SetIvar { name, value } => {
            push_ivar(written, name)?;
            push_value(alloc, written, value)
        }
        Stmt::Return(result) => push_return(alloc, written, result),
        Stmt::Raise(text) => {
            written.extend_from_slice(b"raise ")?;
            push_expression(alloc, written, text, false)
        }
        Stmt::If { arms, other, after } => {
            if *after {
                return push_behind(alloc, written, indent, arms.as_slice());
            }
            push_arms(alloc, written, indent, arms.as_slice())?;
            push_otherwise(alloc, written, indent, other.as_slice())?;
            written.extend_from_slice(b"end")
        }
    }
}

/// ` = value`
pub fn push_value(alloc: Global, written: &mut Vec<u8>, value: &Expr) -> Result<(), AllocError>
    ensures { OnOk result (written.new.items ≡ written.old.items ++ (codes " = " ++ expressions.alone value.now)) }
{
    written.extend_from_slice(b" = ")?;
    push_expression(alloc, written, value, false)
}

fn push_return(alloc: Global, written: &mut Vec<u8>, value: &Option<Expr>) -> Result<(), AllocError>
    ensures { OnOk result (written.new.items ≡ written.old.items ++ spec.return_text value.now) }
{
    match value {
        None => written.extend_from_slice(b"return"),
        Some(expr) => {
            written.extend_from_slice(b"return ")?;
            push_expression(alloc, written, expr, false)
        }
    }
}

/// Statements with a condition behind them.
#[cycle(statement)]
fn push_behind(
    alloc: Global,
    written: &mut Vec<u8>,
    indent: &[u8],
    arms: &[(Expr, Stmts)],
) -> Result<(), AllocError>
    ensures { OnOk result (written.new.items ≡ written.old.items ++ flat_map (spec.statements_behind indent.now)
        arms.now) }
{
    'arms: for (condition, body) in arms {
        push_in_row(alloc, written, indent, body.as_slice())?;
        written.extend_from_slice(b" if ")?;
        push_expression(alloc, written, condition, false)?;
    }
    Ok(())
}

#[cycle(statement)]
fn push_in_row(
    alloc: Global,
    written: &mut Vec<u8>,
    indent: &[u8],
    statements: &[Stmt],
) -> Result<(), AllocError>
    ensures { OnOk result (written.new.items ≡ written.old.items ++ flat_map (λ x. spec.statement x indent.now)
        statements.now) }
{
    'statements: for statement in statements {
        push_statement(alloc, written, indent, statement)?;
    }
    Ok(())
}

/// The arms of an `if` up to where `else` or `end` stands.
#[cycle(statement)]
fn push_arms(
    alloc: Global,
    written: &mut Vec<u8>,
    indent: &[u8],
    arms: &[(Expr, Stmts)],
) -> Result<(), AllocError>
    ensures { OnOk result (written.new.items ≡ written.old.items ++ spec.statement_arms indent.now
        (codes "if ") arms.now) }
{
    let mut first = true;
    'arms: for (condition, body) in arms {
        push_word(written, first)?;
        push_expression(alloc, written, condition, false)?;
        push_inside(alloc, written, indent, body.as_slice())?;
        first = false;
    }
    Ok(())
}

/// The word before a condition.
fn push_word(written: &mut Vec<u8>, first: bool) -> Result<(), AllocError>
    ensures { OnOk result (written.new.items ≡ written.old.items ++ (if first then codes "if " else codes "elsif ")) }
{
    if first {
        written.extend_from_slice(b"if ")
    } else {
        written.extend_from_slice(b"elsif ")
    }
}

#[cycle(statement)]
fn push_otherwise(
    alloc: Global,
    written: &mut Vec<u8>,
    indent: &[u8],
    statements: &[Stmt],
) -> Result<(), AllocError>
    ensures { OnOk result (written.new.items ≡ written.old.items ++ spec.otherwise indent.now
        (map spec.statement statements.now)) }
{
    if statements.is_empty() {
        return Ok(());
    }
    written.extend_from_slice(b"else")?;
    push_inside(alloc, written, indent, statements)
}

/// The rest of a line, the statements inside, and the beginning of the line behind them.
#[cycle(statement)]
pub fn push_inside(
    alloc: Global,
    written: &mut Vec<u8>,
    indent: &[u8],
    statements: &[Stmt],
) -> Result<(), AllocError>
    ensures { OnOk result (written.new.items ≡ written.old.items ++ spec.inside indent.now
        (map spec.statement statements.now)) }
{
    let spaces = deeper(alloc, indent)?;
    written.push(b'\n')?;
    push_statements(alloc, written, spaces.as_slice(), statements)?;
    written.extend_from_slice(indent)
}
