#![tactic(auto, using(crate::proofs::PendingLaws::text_push, crate::proofs::PendingLaws::depth_push, crate::proofs::PendingLaws::steps_push))]

ghost use Rattle.std.specs.Prelude.{◌≡◌, ◌≤◌, ◌+◌, ◌*◌, max, ◌++◌, map, codes, OnOk};
ghost use Rattle.ruby_types.specs.declared.tree.Expr.{size-Expr};
ghost use Rattle.ruby_types.specs.declared.tree.Expr.TheViews.{weight-Expr-Array-0};
ghost use Rattle.ruby_print.specs.Pending.{pending_text, depth, steps, links};
ghost use Rattle.ruby_print.specs.Expressions as spec;

use crate::operators::{Form, form_of, open, push_before};
use ruby_types::{Expr, Text};
use std::alloc::AllocError;

/// What is still to be written behind an operand. Of a list of these the last comes first.
#[derive(Clone, Copy)]
pub enum Pending<'a> {
    /// An expression inside another.
    Operand(&'a Expr),
    /// An operator and its last operand, in an expression that stands inside another or alone.
    Operator(&'a [u8], &'a Expr, bool),
    /// What stands behind the receiver of a call, by its form, name and arguments; the call stands inside another or
    /// alone.
    Behind(Form, &'a Text, &'a [Expr], bool),
    /// The parenthesis behind an operator expression.
    Close,
}

/// An operator; its last operand is pending, and the parenthesis behind that.
pub fn push_operator<'a>(
    written: &mut Vec<u8>,
    pending: &mut Vec<Pending<'a>>,
    operator: &[u8],
    last: &'a Expr,
    inside: bool,
) -> Result<(), AllocError>
    ensures written { OnOk result (written.new.items ≡ written.old.items ++ operator.now) }
    ensures text { OnOk result
        (pending_text pending.new.items
        ≡ spec.inner last.now ++ (spec.right inside ++ pending_text pending.old.items)) }
    ensures depth { OnOk result (depth pending.new.items ≡ max (depth pending.old.items) (size-Expr last.now)) }
    ensures steps { OnOk result (steps pending.new.items ≤ steps pending.old.items + (2 * links last.now + 1)) }
{
    written.extend_from_slice(operator)?;
    close_later(pending, inside)?;
    pending.push(Pending::Operand(last))?;
    Ok(())
}

/// The parenthesis behind an operator expression that stands inside another is pending.
fn close_later(pending: &mut Vec<Pending<'_>>, inside: bool) -> Result<(), AllocError>
    ensures text { OnOk result (pending_text pending.new.items ≡ spec.right inside ++ pending_text pending.old.items) }
    ensures depth { OnOk result (depth pending.new.items ≡ depth pending.old.items) }
    ensures steps { OnOk result (steps pending.new.items ≤ steps pending.old.items + 1) }
{
    if inside {
        pending.push(Pending::Close)?;
    }
    Ok(())
}

/// The beginning of an operator expression, of which the last operator and operand are pending.
pub fn begin_last<'a>(
    written: &mut Vec<u8>,
    pending: &mut Vec<Pending<'a>>,
    operator: &'a [u8],
    last: &'a Expr,
    inside: bool,
) -> Result<(), AllocError>
    ensures written { OnOk result (written.new.items ≡ written.old.items ++ spec.left inside) }
    ensures text { OnOk result
        (pending_text pending.new.items
        ≡ operator.now ++ (spec.inner last.now ++ (spec.right inside ++ pending_text pending.old.items))) }
    ensures depth { OnOk result (depth pending.new.items ≡ max (depth pending.old.items) (size-Expr last.now)) }
    ensures steps { OnOk result (steps pending.new.items ≡ steps pending.old.items + (2 * links last.now + 2)) }
{
    open(written, inside)?;
    pending.push(Pending::Operator(operator, last, inside))?;
    Ok(())
}

/// The beginning of an expression of two operands, which are pending.
pub fn begin_both<'a>(
    written: &mut Vec<u8>,
    pending: &mut Vec<Pending<'a>>,
    first: &'a Expr,
    operator: &'a [u8],
    last: &'a Expr,
    inside: bool,
) -> Result<(), AllocError>
    ensures written { OnOk result (written.new.items ≡ written.old.items ++ spec.left inside) }
    ensures text { OnOk result
        (pending_text pending.new.items
        ≡ spec.inner first.now ++
        (operator.now ++ (spec.inner last.now ++ (spec.right inside ++ pending_text pending.old.items)))) }
    ensures depth { OnOk result (depth pending.new.items ≡ max (max (depth pending.old.items) (size-Expr last.now))
        (size-Expr first.now)) }
    ensures steps { OnOk result
        (steps pending.new.items ≡ steps pending.old.items + (2 * links last.now + 2) + 2 * links first.now) }
{
    begin_last(written, pending, operator, last, inside)?;
    pending.push(Pending::Operand(first))?;
    Ok(())
}

/// The beginning of a choice, whose test and answers are pending.
pub fn begin_choice<'a>(
    written: &mut Vec<u8>,
    pending: &mut Vec<Pending<'a>>,
    test: &'a Expr,
    first: &'a Expr,
    last: &'a Expr,
    inside: bool,
) -> Result<(), AllocError>
    ensures written { OnOk result (written.new.items ≡ written.old.items ++ spec.left inside) }
    ensures text { OnOk result
        (pending_text pending.new.items
        ≡ spec.inner test.now ++
        (codes " ? " ++ (spec.inner first.now ++
        (codes " : " ++ (spec.inner last.now ++ (spec.right inside ++ pending_text pending.old.items)))))) }
    ensures depth { OnOk result
        (depth pending.new.items
        ≡ max (max (max (depth pending.old.items) (size-Expr last.now)) (size-Expr first.now)) (size-Expr test.now)) }
    ensures steps { OnOk result
        (steps pending.new.items ≡ steps pending.old.items + (2 * links last.now + 2) +
        (2 * links first.now + 2) + 2 * links test.now) }
{
    begin_last(written, pending, b" : ", last, inside)?;
    begin_both(written, pending, test, b" ? ", first, false)
}

/// The beginning of a call on an expression; the receiver and what stands behind it are pending.
pub fn begin_call<'a>(
    written: &mut Vec<u8>,
    pending: &mut Vec<Pending<'a>>,
    on: &'a Expr,
    name: &'a Text,
    args: &'a [Expr],
    inside: bool,
) -> Result<(), AllocError>
    ensures written { OnOk result
        (written.new.items ≡ written.old.items ++ spec.before_receiver (spec.form_of name.now) inside) }
    ensures text { OnOk result
        (pending_text pending.new.items
        ≡ spec.inner on.now ++
        (spec.behind_receiver (spec.form_of name.now) name.now (map spec.expression args.now) inside ++ pending_text
        pending.old.items)) }
    ensures depth { OnOk result
        (depth pending.new.items ≡ max (max (depth pending.old.items) (weight-Expr-Array-0 args.now + 1))
        (size-Expr on.now)) }
    ensures steps { OnOk result (steps pending.new.items ≡ steps pending.old.items + 1 + 2 * links on.now) }
{
    let form = form_of(name.as_bytes());
    push_before(written, form, inside)?;
    pending.push(Pending::Behind(form, name, args, inside))?;
    pending.push(Pending::Operand(on))?;
    Ok(())
}
