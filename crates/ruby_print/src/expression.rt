ghost use Rattle.std.specs.Prelude.{◌≡◌, ◌≤◌, ◌<◌, ◌+◌, ◌*◌, ◌++◌, ◌∷◌, [], max, map, OnOk};
ghost use Rattle.std.specs.List.{flat_map};
ghost use Rattle.std.specs.Fmt.{signed_decimal};
ghost use Rattle.ruby_print.specs.Pieces as pieces;
ghost use Rattle.ruby_types.specs.declared.tree.Expr.{size-Expr};
ghost use Rattle.ruby_print.specs.Expressions as spec;
ghost use Rattle.ruby_print.specs.Pending.{pending_text, piece_text, depth, piece_depth, steps, piece_steps, links};

use crate::operators::{Form, close};
use crate::pending::{Pending, begin_both, begin_call, begin_choice, begin_last, push_operator};
use crate::pieces::{push_comma, push_constant, push_escapes, push_ivar, push_symbol};
use plain_text::decimal;
use ruby_types::{Expr, Part, Text};
use std::alloc::{AllocError, Global};

/// An expression, which stands inside another or alone. What stands behind its operands is kept in a list of pieces, so
/// that a chain of operands of any length is written without recursion.
#[cycle(expression)]
pub fn push_expression(
    alloc: Global,
    written: &mut Vec<u8>,
    expr: &Expr,
    inside: bool,
) -> Result<(), AllocError>
    ensures { OnOk result (written.new.items ≡ written.old.items ++ spec.expression expr.now inside) }
{
    let mut pending = Vec::new(alloc);
    push_beginning(alloc, written, &mut pending, expr, inside)?;
    'pieces: while let Some(piece) = pending.pop() {
        push_piece(alloc, written, &mut pending, piece)?;
    }
    Ok(())
}

/// The next piece, up to its first operand; the rest is pending.
#[cycle(expression)]
fn push_piece<'a>(
    alloc: Global,
    written: &mut Vec<u8>,
    pending: &mut Vec<Pending<'a>>,
    piece: Pending<'a>,
) -> Result<(), AllocError>
    ensures text { OnOk result (written.new.items ++ pending_text pending.new.items
        ≡ written.old.items ++ (piece_text piece.entry ++ pending_text pending.old.items)) }
    ensures depth { OnOk result (depth pending.new.items ≤ max (depth pending.old.items) (piece_depth piece.entry)) }
    ensures steps { OnOk result (steps pending.new.items < steps pending.old.items + piece_steps piece.entry) }
{
    match piece {
        Pending::Operand(expr) => push_beginning(alloc, written, pending, expr, true),
        Pending::Operator(operator, expr, inside) => {
            push_operator(written, pending, operator, expr, inside)
        }
        Pending::Behind(form, name, args, inside) => {
            push_behind(alloc, written, form, name, args, inside)
        }
        Pending::Close => close(written, true),
    }
}

/// What of an expression stands before its first operand; the rest is pending.
#[cycle(expression)]
fn push_beginning<'a>(
    alloc: Global,
    written: &mut Vec<u8>,
    pending: &mut Vec<Pending<'a>>,
    expr: &'a Expr,
    inside: bool,
) -> Result<(), AllocError>
    ensures text { OnOk result (written.new.items ++ pending_text pending.new.items
        ≡ written.old.items ++ (spec.expression expr.now inside ++ pending_text pending.old.items)) }
    ensures depth { OnOk result (depth pending.new.items ≤ max (depth pending.old.items) (size-Expr expr.now)) }
    ensures steps { OnOk result (steps pending.new.items < steps pending.old.items + 2 * links expr.now) }
{
    match expr {
        Expr::Nil => written.extend_from_slice(b"nil"),
        Expr::True => written.extend_from_slice(b"true"),
        Expr::False => written.extend_from_slice(b"false"),
        Expr::SelfRef => written.extend_from_slice(b"self"),
        Expr::Int(number) => push_number(alloc, written, *number),
        Expr::Str(parts) => push_text(alloc, written, parts.as_slice()),
        Expr::Sym(name) => push_symbol(written, name),
        Expr::Local(name) => written.extend_from_slice(name.as_bytes()),
        Expr::Ivar(name) => push_ivar(written, name),
        Expr::Const(constant) => push_constant(alloc, written, constant),
        Expr::Array(items) => push_bracketed(alloc, written, items.as_slice()),
        Expr::Hash(pairs) => push_hash(alloc, written, pairs.as_slice()),
        Expr::Call { on, name, args } => match on {
            None => push_own(alloc, written, name, args.as_slice()),
            Some(on) => begin_call(written, pending, on.get(), name, args.as_slice(), inside),
        },
        Expr::Not(a) => begin_last(written, pending, b"!", a.get(), inside),
        Expr::And(a, b) => begin_both(written, pending, a.get(), b" && ", b.get(), inside),
        Expr::Or(a, b) => begin_both(written, pending, a.get(), b" || ", b.get(), inside),
        Expr::Choose(a, b, c) => {
            begin_choice(written, pending, a.get(), b.get(), c.get(), inside)
        }
    }
}

fn push_number(alloc: Global, written: &mut Vec<u8>, number: i64) -> Result<(), AllocError>
    ensures { OnOk result (written.new.items ≡ written.old.items ++ signed_decimal number) }
{
    let digits = decimal(alloc, number)?;
    written.extend_from_slice(digits.as_bytes())
}

/// A text in double quotes.
#[cycle(expression)]
fn push_text(alloc: Global, written: &mut Vec<u8>, parts: &[Part]) -> Result<(), AllocError>
    ensures { OnOk result (written.new.items ≡ written.old.items ++ (34 ∷ (flat_map spec.part parts.now ++ 34 ∷ []))) }
{
    written.push(b'"')?;
    push_parts(alloc, written, parts)?;
    written.push(b'"')?;
    Ok(())
}

/// A hash in braces.
#[cycle(expression)]
fn push_hash(alloc: Global, written: &mut Vec<u8>, pairs: &[(Expr, Expr)]) -> Result<(), AllocError>
    ensures { OnOk result (written.new.items
        ≡ written.old.items ++ (123 ∷ (pieces.joined (map spec.inner_pair pairs.now) ++ 125 ∷ []))) }
{
    written.push(b'{')?;
    push_pairs(alloc, written, pairs)?;
    written.push(b'}')?;
    Ok(())
}

/// A call on self.
#[cycle(expression)]
fn push_own(
    alloc: Global,
    written: &mut Vec<u8>,
    name: &Text,
    args: &[Expr],
) -> Result<(), AllocError>
    ensures { OnOk result (written.new.items
        ≡ written.old.items ++ (name.now ++ pieces.grouped (spec.members (map spec.expression args.now)))) }
{
    written.extend_from_slice(name.as_bytes())?;
    push_grouped(alloc, written, args)
}

/// Arguments in parentheses.
#[cycle(expression)]
fn push_grouped(alloc: Global, written: &mut Vec<u8>, args: &[Expr]) -> Result<(), AllocError>
    ensures { OnOk result (written.new.items ≡ written.old.items ++ pieces.grouped
        (spec.members (map spec.expression args.now))) }
{
    written.push(b'(')?;
    push_members(alloc, written, args)?;
    written.push(b')')?;
    Ok(())
}

/// The rest of a call behind its receiver.
#[cycle(expression)]
fn push_behind(
    alloc: Global,
    written: &mut Vec<u8>,
    form: Form,
    name: &Text,
    args: &[Expr],
    inside: bool,
) -> Result<(), AllocError>
    ensures { OnOk result (written.new.items ≡ written.old.items ++ spec.behind_receiver form name.now
        (map spec.expression args.now) inside) }
{
    match form {
        Form::Element => push_bracketed(alloc, written, args),
        Form::Negation => close(written, inside),
        Form::Operator => push_operand(alloc, written, name, args, inside),
        Form::Method => push_method(alloc, written, name, args),
    }
}

/// Expressions in brackets.
#[cycle(expression)]
fn push_bracketed(alloc: Global, written: &mut Vec<u8>, args: &[Expr]) -> Result<(), AllocError>
    ensures { OnOk result (written.new.items
        ≡ written.old.items ++ (91 ∷ (spec.members (map spec.expression args.now) ++ 93 ∷ []))) }
{
    written.push(b'[')?;
    push_members(alloc, written, args)?;
    written.push(b']')?;
    Ok(())
}

/// An operator and its second operand.
#[cycle(expression)]
fn push_operand(
    alloc: Global,
    written: &mut Vec<u8>,
    name: &Text,
    args: &[Expr],
    inside: bool,
) -> Result<(), AllocError>
    ensures { OnOk result (written.new.items
        ≡ written.old.items ++ (32 ∷
        (name.now ++ (32 ∷ (spec.members (map spec.expression args.now) ++ spec.right inside))))) }
{
    written.push(b' ')?;
    written.extend_from_slice(name.as_bytes())?;
    written.push(b' ')?;
    push_members(alloc, written, args)?;
    close(written, inside)
}

/// A method's name behind a dot and its arguments.
#[cycle(expression)]
fn push_method(
    alloc: Global,
    written: &mut Vec<u8>,
    name: &Text,
    args: &[Expr],
) -> Result<(), AllocError>
    ensures { OnOk result (written.new.items
        ≡ written.old.items ++ (46 ∷ (name.now ++ spec.arguments (map spec.expression args.now)))) }
{
    written.push(b'.')?;
    written.extend_from_slice(name.as_bytes())?;
    push_arguments(alloc, written, args)
}

/// Arguments in parentheses, where there are any.
#[cycle(expression)]
fn push_arguments(alloc: Global, written: &mut Vec<u8>, args: &[Expr]) -> Result<(), AllocError>
    ensures { OnOk result (written.new.items ≡ written.old.items ++ spec.arguments (map spec.expression args.now)) }
{
    if args.is_empty() {
        return Ok(());
    }
    push_grouped(alloc, written, args)
}

/// Expressions inside another, with commas between them.
#[cycle(expression)]
fn push_members(alloc: Global, written: &mut Vec<u8>, items: &[Expr]) -> Result<(), AllocError>
    ensures { OnOk result (written.new.items ≡ written.old.items ++ pieces.joined (map spec.inner items.now)) }
{
    let mut first = true;
    'members: for item in items {
        push_comma(written, first)?;
        push_expression(alloc, written, item, true)?;
        first = false;
    }
    Ok(())
}

/// The pairs of a hash, with commas between them.
#[cycle(expression)]
fn push_pairs(
    alloc: Global,
    written: &mut Vec<u8>,
    pairs: &[(Expr, Expr)],
) -> Result<(), AllocError>
    ensures { OnOk result (written.new.items ≡ written.old.items ++ pieces.joined (map spec.inner_pair pairs.now)) }
{
    let mut first = true;
    'pairs: for (key, value) in pairs {
        push_comma(written, first)?;
        push_expression(alloc, written, key, true)?;
        written.extend_from_slice(b" => ")?;
        push_expression(alloc, written, value, true)?;
        first = false;
    }
    Ok(())
}

/// The parts of a text between its quotes.
#[cycle(expression)]
fn push_parts(alloc: Global, written: &mut Vec<u8>, parts: &[Part]) -> Result<(), AllocError>
    ensures { OnOk result (written.new.items ≡ written.old.items ++ flat_map spec.part parts.now) }
{
    'parts: for part in parts {
        push_part(alloc, written, part)?;
    }
    Ok(())
}

#[cycle(expression)]
fn push_part(alloc: Global, written: &mut Vec<u8>, part: &Part) -> Result<(), AllocError>
    ensures { OnOk result (written.new.items ≡ written.old.items ++ spec.part part.now) }
{
    match part {
        Part::Plain(text) => push_escapes(written, text.as_bytes()),
        Part::Inside(expr) => {
            written.extend_from_slice(b"#{")?;
            push_expression(alloc, written, expr, true)?;
            written.push(b'}')?;
            Ok(())
        }
    }
}
