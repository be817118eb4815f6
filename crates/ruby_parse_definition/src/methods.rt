//! Methods.

ghost use Rattle.std.specs.Prelude.{◌≡◌, ◌≤◌, false, length, OnOk};
ghost use Rattle.ruby_grammar.specs.Definitions as spec;
ghost use Rattle.ruby_grammar.specs.Rules as rules;
ghost use Rattle.ruby_parse_steps.specs.Gives.{Gives, GivesRule};
ghost use Rattle.ruby_parse_marks.specs.Views.{SameBodies};
ghost use Rattle.ruby_parse_statement.specs.Places.{around_view};
ghost use Rattle.ruby_parse_definition.specs.Parts.{heading_view, GivesSignature, GivesMethod, GivesStatements};

use crate::headings::{Heading, method_heading};
use crate::parameters::{Parameters, all_parameters};
use ruby_parse_cursor::terminals::{CLOSE_PAREN, LINE, OPEN_PAREN};
use ruby_parse_cursor::{Cursor, Fault};
use ruby_parse_marks::Marks;
use ruby_parse_statement::{Body, statements};
use ruby_parse_steps::opened;
use ruby_types::{Def, Stmts};
use ruby_words::{DEF, END};
use std::alloc::Global;

/// What stands before the statements of a method.
#[derive(Drop)]
pub struct Signature<'a> {
    pub heading: Heading,
    pub parameters: Parameters<'a>,
}

/// Parameters in parentheses, and a Line.
fn enclosed<'a>(alloc: Global, cursor: &mut Cursor<'a>) -> Result<Parameters<'a>, Fault>
    ensures reads { Gives (spec.parameters_from 0) cursor.old result cursor.new }
    ensures shorter { length cursor.new ≤ length cursor.old }
{
    cursor.take(OPEN_PAREN)?;
    let names = all_parameters(alloc, cursor)?;
    cursor.take(CLOSE_PAREN)?;
    cursor.take(LINE)?;
    Ok(names)
}

/// Perhaps parameters in parentheses, and a Line.
fn parameter_list<'a>(
    alloc: Global,
    levels: u32,
    cursor: &mut Cursor<'a>,
) -> Result<Parameters<'a>, Fault>
    ensures reads { GivesRule (rules.parameter_list levels) cursor.old result cursor.new }
    ensures shorter { length cursor.new ≤ length cursor.old }
{
    if cursor.sees(OPEN_PAREN) {
        opened(levels)?;
        enclosed(alloc, cursor)
    } else {
        cursor.take(LINE)?;
        Ok(Parameters::new(alloc))
    }
}

/// `def`, the method's name and its parameters.
fn method_signature<'a>(
    alloc: Global,
    levels: u32,
    marks: &mut Marks,
    cursor: &mut Cursor<'a>,
) -> Result<Signature<'a>, Fault>
    ensures reads { GivesSignature levels marks.old cursor.old result marks.new cursor.new }
    ensures bodies { OnOk result (SameBodies marks.old marks.new) }
    ensures shorter { length cursor.new ≤ length cursor.old }
{
    cursor.take(DEF)?;
    let heading = method_heading(alloc, marks, cursor)?;
    let parameters = parameter_list(alloc, levels, cursor)?;
    Ok(Signature {
        heading,
        parameters,
    })
}

/// Whether a method of this name may assign instance variables.
fn may_set(heading: &Heading) -> bool
    ensures { result ≡ spec.may_set false (heading_view heading.now) }
{
    !heading.single && heading.name.as_bytes() == b"initialize".as_slice()
}

/// The statements of a method with these parameters, and its `end`.
fn method_body<'a>(
    body: Body,
    parameters: Parameters<'a>,
    cursor: &mut Cursor<'a>,
) -> Result<Stmts, Fault>
    ensures reads { GivesStatements (around_view body parameters.entry) cursor.old result cursor.new }
    ensures shorter { length cursor.new ≤ length cursor.old }
{
    let mut locals = parameters.into_locals(body.alloc)?;
    let block = statements(body, &mut locals, cursor)?;
    cursor.take(END)?;
    Ok(block.statements)
}

/// A method, which has so many levels inside.
pub fn method<'a>(
    alloc: Global,
    levels: u32,
    marks: &mut Marks,
    cursor: &mut Cursor<'a>,
) -> Result<Def, Fault>
    ensures reads { GivesMethod levels marks.old cursor.old result marks.new cursor.new }
    ensures bodies { OnOk result (SameBodies marks.old marks.new) }
    ensures shorter { length cursor.new ≤ length cursor.old }
{
    let signature = method_signature(alloc, levels, marks, cursor)?;
    let Signature {
        heading,
        parameters,
    } = signature;
    let params = parameters.texts(alloc)?;
    let inner = Body {
        alloc,
        levels,
        may_set: may_set(&heading),
    };
    let body = method_body(inner, parameters, cursor)?;
    Ok(Def::Method {
        single: heading.single,
        name: heading.name,
        params,
        body,
    })
}
