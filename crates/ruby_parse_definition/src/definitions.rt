//! Definitions, modules and classes.

ghost use Rattle.std.specs.Prelude.{◌≤◌, [], length, OnOk};
ghost use Rattle.ruby_grammar.specs.Definitions as spec;
ghost use Rattle.ruby_grammar.specs.Rules as rules;
ghost use Rattle.ruby_parse_marks.specs.Views.{SameBodies};
ghost use Rattle.ruby_parse_definition.specs.Answers.{GivesMarked, GivesMarkedRule};
ghost use Rattle.ruby_parse_definition.specs.Parts.{GivesBody};
ghost use Rattle.ruby_parse_definition.specs.Places.{body_view};

use crate::headers;
use crate::members::other;
use crate::place::{Place, begins};
use case_table::cases;
use ruby_parse_cursor::terminals::LINE;
use ruby_parse_cursor::{Cursor, Fault};
use ruby_parse_marks::Marks;
use ruby_parse_steps::opened;
use ruby_types::{Def, Defs};
use ruby_words::{CLASS, END, MODULE};

/// Definitions, each with its Line, which the last may lack.
#[cycle(definition)]
pub fn definitions(place: Place, marks: &mut Marks, cursor: &mut Cursor<'_>) -> Result<Defs, Fault>
    ensures reads { GivesMarkedRule (rules.definitions (body_view place marks.old) []) marks.old cursor.old result
        marks.new cursor.new }
    ensures bodies { OnOk result (SameBodies marks.old marks.new) }
    ensures shorter { length cursor.new ≤ length cursor.old }
{
    let mut defs = Defs::new(place.alloc);
    'lines: while begins(marks, cursor) {
        defs.push(definition(place, marks, cursor)?)?;
        if !cursor.sees(LINE) {
            return Ok(defs);
        }
        cursor.skip();
    }
    Ok(defs)
}

#[cycle(definition)]
fn definition(place: Place, marks: &mut Marks, cursor: &mut Cursor<'_>) -> Result<Def, Fault>
    ensures reads { GivesMarkedRule (rules.definition (body_view place marks.old)) marks.old cursor.old result marks.new
        cursor.new }
    ensures bodies { OnOk result (SameBodies marks.old marks.new) }
    ensures shorter { length cursor.new ≤ length cursor.old }
{
    cases!(cursor.peek_code();
        MODULE => {
            let levels = opened(place.levels)?;
            module(place, levels, marks, cursor)
        },
        CLASS => {
            let levels = opened(place.levels)?;
            class(place, levels, marks, cursor)
        };
        other(place, marks, cursor)
    )
}

/// The definitions in a module or class, and its `end`.
#[cycle(definition)]
fn inside(place: Place, marks: &mut Marks, cursor: &mut Cursor<'_>) -> Result<Defs, Fault>
    ensures reads { GivesBody (body_view place marks.old) marks.old cursor.old result marks.new cursor.new }
    ensures bodies { OnOk result (SameBodies marks.old marks.new) }
    ensures shorter { length cursor.new ≤ length cursor.old }
{
    let defs = definitions(place, marks, cursor)?;
    cursor.take(END)?;
    Ok(defs)
}

/// A module, which has so many levels inside.
#[cycle(definition)]
fn module(
    place: Place,
    levels: u32,
    marks: &mut Marks,
    cursor: &mut Cursor<'_>,
) -> Result<Def, Fault>
    ensures reads { GivesMarked (spec.module_from (body_view place marks.old) levels) marks.old cursor.old result
        marks.new cursor.new }
    ensures bodies { OnOk result (SameBodies marks.old marks.new) }
    ensures shorter { length cursor.new ≤ length cursor.old }
{
    let path = headers::module(place.alloc, marks, cursor)?;
    let body = inside(Place { levels, ..place }, marks, cursor)?;
    marks.close();
    Ok(Def::Module { path, body })
}

/// A class, which has so many levels inside.
#[cycle(definition)]
fn class(
    place: Place,
    levels: u32,
    marks: &mut Marks,
    cursor: &mut Cursor<'_>,
) -> Result<Def, Fault>
    ensures reads { GivesMarked (spec.class_from (body_view place marks.old) levels) marks.old cursor.old result
        marks.new cursor.new }
    ensures bodies { OnOk result (SameBodies marks.old marks.new) }
    ensures shorter { length cursor.new ≤ length cursor.old }
{
    let (path, parent) = headers::class(place.alloc, marks, cursor)?;
    let body = inside(Place { levels, ..place }, marks, cursor)?;
    marks.close();
    Ok(Def::Class { path, parent, body })
}
