//! Definitions that hold no other definitions.

ghost use Rattle.std.specs.Prelude.{◌≡◌, ◌≤◌, length, false, OnOk};
ghost use Rattle.descent.specs.Reading.{head};
ghost use Rattle.ruby_grammar.specs.Choices.{next_is};
ghost use Rattle.ruby_grammar.specs.Definitions as spec;
ghost use Rattle.ruby_grammar.specs.Definitions.{body};
ghost use Rattle.ruby_grammar.specs.Rules as rules;
ghost use Rattle.ruby_grammar.specs.Terminals.{is_const, is_module, is_class};
ghost use Rattle.ruby_parse_marks.specs.Views.{SameBodies};
ghost use Rattle.ruby_parse_definition.specs.Answers.{GivesMarked, GivesMarkedRule};
ghost use Rattle.ruby_parse_definition.specs.Parts.{GivesReader};
ghost use Rattle.ruby_parse_definition.specs.Places.{body_view};

use crate::counting::assign;
use crate::methods::method;
use crate::place::Place;
use case_table::cases;
use ruby_parse_cursor::terminals::{ASSIGN, COMMA, CONST, SYM};
use ruby_parse_cursor::{Cursor, Fault, behind_sign};
use ruby_parse_marks::{Act, Marks};
use ruby_parse_steps::{constant, longer, opened};
use ruby_types::{CPath, Def, Text, TextList};
use ruby_words::{ATTR_READER, DEF, INCLUDE};
use std::alloc::Global;

/// A constant, `=` and its value. It counts behind the `=`.
fn assigned(place: Place, marks: &mut Marks, cursor: &mut Cursor<'_>) -> Result<Def, Fault>
    ensures reads { GivesMarked (spec.assign_from (body_view place marks.old)) marks.old cursor.old result marks.new
        cursor.new }
    ensures bodies { OnOk result (SameBodies marks.old marks.new) }
    ensures shorter { length cursor.new ≤ length cursor.old }
{
    let word = cursor.take_word(CONST)?;
    cursor.take(ASSIGN)?;
    let path = longer(place.alloc, CPath::new(place.alloc), word.text)?;
    assign(marks, path.as_slice(), word.at)?;
    let name = Text::from_bytes(place.alloc, word.text)?;
    let value = place.expression(cursor)?;
    Ok(Def::Assign { name, value })
}

/// `include` and a constant.
fn included(alloc: Global, marks: &mut Marks, cursor: &mut Cursor<'_>) -> Result<Def, Fault>
    ensures reads { GivesMarked spec.include_from marks.old cursor.old result marks.new cursor.new }
    ensures bodies { OnOk result (SameBodies marks.old marks.new) }
    ensures shorter { length cursor.new ≤ length cursor.old }
{
    cursor.take(INCLUDE)?;
    Ok(Def::Include(constant(alloc, cursor)?))
}

/// A symbol that names a reader. It counts behind the symbol, as a method of the name.
fn reader_name(alloc: Global, marks: &mut Marks, cursor: &mut Cursor<'_>) -> Result<Text, Fault>
    ensures reads { GivesReader marks.old.here marks.old cursor.old result marks.new cursor.new }
    ensures bodies { OnOk result (SameBodies marks.old marks.new) }
    ensures shorter { length cursor.new ≤ length cursor.old }
{
    let word = cursor.take_word(SYM)?;
    let name = Vec::from_slice(alloc, behind_sign(word.text))?;
    let single = false;
    marks.add(Act::Defines { single, name }, word.at)?;
    Ok(Text::from_bytes(alloc, behind_sign(word.text))?)
}

/// The readers that follow these, each behind a comma.
fn more_readers(
    alloc: Global,
    first: TextList,
    marks: &mut Marks,
    cursor: &mut Cursor<'_>,
) -> Result<TextList, Fault>
    ensures reads { GivesMarkedRule (rules.more_readers marks.old.here first) marks.old cursor.old result
        marks.new cursor.new }
    ensures bodies { OnOk result (SameBodies marks.old marks.new) }
    ensures shorter { length cursor.new ≤ length cursor.old }
{
    let mut names = first;
    'names: while cursor.sees(COMMA) {
        cursor.skip();
        names.push(reader_name(alloc, marks, cursor)?)?;
    }
    Ok(names)
}

/// `attr_reader` and its symbols.
fn readers(alloc: Global, marks: &mut Marks, cursor: &mut Cursor<'_>) -> Result<Def, Fault>
    ensures reads { GivesMarked (spec.readers_from (body 0 false marks.old.here)) marks.old cursor.old result marks.new
        cursor.new }
    ensures bodies { OnOk result (SameBodies marks.old marks.new) }
    ensures shorter { length cursor.new ≤ length cursor.old }
{
    cursor.take(ATTR_READER)?;
    let mut names = TextList::new(alloc);
    names.push(reader_name(alloc, marks, cursor)?)?;
    Ok(Def::Readers(more_readers(alloc, names, marks, cursor)?))
}

/// What stands only inside a module or class.
fn member(place: Place, marks: &mut Marks, cursor: &mut Cursor<'_>) -> Result<Def, Fault>
    requires inside { spec.at_top marks.old.here ≡ false }
    requires no_const { next_is is_const (head cursor.old) ≡ false }
    requires no_module { next_is is_module (head cursor.old) ≡ false }
    requires no_class { next_is is_class (head cursor.old) ≡ false }
    ensures reads { GivesMarkedRule (rules.definition (body_view place marks.old)) marks.old cursor.old result marks.new
        cursor.new }
    ensures bodies { OnOk result (SameBodies marks.old marks.new) }
    ensures shorter { length cursor.new ≤ length cursor.old }
{
    cases!(cursor.peek_code();
        INCLUDE => included(place.alloc, marks, cursor),
        ATTR_READER => readers(place.alloc, marks, cursor),
        DEF => {
            let levels = opened(place.levels)?;
            method(place.alloc, levels, marks, cursor)
        };
        Err(Fault::Unexpected)
    )
}

/// A definition that is no module and no class.
pub fn other(place: Place, marks: &mut Marks, cursor: &mut Cursor<'_>) -> Result<Def, Fault>
    requires no_module { next_is is_module (head cursor.old) ≡ false }
    requires no_class { next_is is_class (head cursor.old) ≡ false }
    ensures reads { GivesMarkedRule (rules.definition (body_view place marks.old)) marks.old cursor.old result marks.new
        cursor.new }
    ensures bodies { OnOk result (SameBodies marks.old marks.new) }
    ensures shorter { length cursor.new ≤ length cursor.old }
{
    if cursor.sees(CONST) {
        assigned(place, marks, cursor)
    } else if marks.is_top() {
        Err(Fault::Unexpected)
    } else {
        member(place, marks, cursor)
    }
}
