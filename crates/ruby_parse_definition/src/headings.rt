//! Names of methods.

ghost use Rattle.std.specs.Prelude.{◌≤◌, length, OnOk};
ghost use Rattle.ruby_grammar.specs.Definitions as spec;
ghost use Rattle.ruby_grammar.specs.Rules as rules;
ghost use Rattle.ruby_parse_marks.specs.Views.{SameBodies};
ghost use Rattle.ruby_parse_definition.specs.Answers.{GivesMarked, GivesMarkedRule};
ghost use Rattle.ruby_parse_definition.specs.Parts.{heading_as};

use ruby_parse_cursor::terminals::{DOT, NAME};
use ruby_parse_cursor::{Cursor, Fault};
use ruby_parse_marks::{Act, Marks};
use ruby_types::Text;
use ruby_words::SELF;
use std::alloc::Global;

/// The name of a method. `single` says that `self.` stands before it.
#[derive(Drop)]
pub struct Heading {
    pub single: bool,
    pub name: Text,
}

/// A name, which counts as a method of the module or class around.
fn method_name(
    alloc: Global,
    single: bool,
    marks: &mut Marks,
    cursor: &mut Cursor<'_>,
) -> Result<Heading, Fault>
    ensures reads { GivesMarked (spec.method_name marks.old.here single) marks.old cursor.old (heading_as result)
        marks.new cursor.new }
    ensures bodies { OnOk result (SameBodies marks.old marks.new) }
    ensures shorter { length cursor.new ≤ length cursor.old }
{
    let word = cursor.take_word(NAME)?;
    let name = Vec::from_slice(alloc, word.text)?;
    marks.add(Act::Defines { single, name }, word.at)?;
    Ok(Heading {
        single,
        name: Text::from_bytes(alloc, word.text)?,
    })
}

/// `self`, `.` and a name.
fn singleton(alloc: Global, marks: &mut Marks, cursor: &mut Cursor<'_>) -> Result<Heading, Fault>
    ensures reads { GivesMarked (spec.singleton_heading marks.old.here) marks.old cursor.old (heading_as result)
        marks.new cursor.new }
    ensures bodies { OnOk result (SameBodies marks.old marks.new) }
    ensures shorter { length cursor.new ≤ length cursor.old }
{
    cursor.take(SELF)?;
    cursor.take(DOT)?;
    method_name(alloc, true, marks, cursor)
}

/// A name, perhaps with `self.` before it.
pub fn method_heading(
    alloc: Global,
    marks: &mut Marks,
    cursor: &mut Cursor<'_>,
) -> Result<Heading, Fault>
    ensures reads { GivesMarkedRule (rules.heading marks.old.here) marks.old cursor.old (heading_as result) marks.new
        cursor.new }
    ensures bodies { OnOk result (SameBodies marks.old marks.new) }
    ensures shorter { length cursor.new ≤ length cursor.old }
{
    if cursor.sees(SELF) {
        singleton(alloc, marks, cursor)
    } else if cursor.sees(NAME) {
        method_name(alloc, false, marks, cursor)
    } else {
        Err(Fault::Unexpected)
    }
}
