//! What stands before the definitions in a module or class.

ghost use Rattle.std.specs.Prelude.{◌≤◌, length, IfOk, OnOk};
ghost use Rattle.ruby_grammar.specs.Rules as rules;
ghost use Rattle.ruby_parse_marks.specs.Views.{act_view, SameBodies};
ghost use Rattle.ruby_parse_definition.specs.Answers.{GivesMarkedRule, IsInside};
ghost use Rattle.ruby_parse_definition.specs.Parts.{GivesPath, GivesParent, GivesModule, GivesClass};

use crate::counting::open;
use crate::paths::{Written, path_as_written};
use ruby_parse_cursor::terminals::{LESS, LINE};
use ruby_parse_cursor::{Cursor, Fault};
use ruby_parse_marks::{Act, Marks};
use ruby_parse_steps::constant;
use ruby_types::{CPath, ConstRef};
use ruby_words::{CLASS, MODULE};
use std::alloc::Global;

/// A path, which inside another definition is one name. It counts behind its end.
fn opened_path(
    alloc: Global,
    act: Act,
    marks: &mut Marks,
    cursor: &mut Cursor<'_>,
) -> Result<Written, Fault>
    ensures reads { GivesPath (act_view act) marks.old cursor.old result marks.new cursor.new }
    ensures inside { IfOk result (λ p. IsInside marks.old p.path marks.new) }
    ensures shorter { length cursor.new ≤ length cursor.old }
{
    let path = path_as_written(alloc, marks.is_top(), cursor)?;
    open(marks, path.path.as_slice(), act, path.at)?;
    Ok(path)
}

/// `module`, its path and a Line.
pub fn module(alloc: Global, marks: &mut Marks, cursor: &mut Cursor<'_>) -> Result<CPath, Fault>
    ensures reads { GivesModule marks.old cursor.old result marks.new cursor.new }
    ensures inside { IfOk result (λ name. IsInside marks.old name marks.new) }
    ensures shorter { length cursor.new ≤ length cursor.old }
{
    cursor.take(MODULE)?;
    let path = opened_path(alloc, Act::OpensModule, marks, cursor)?;
    cursor.take(LINE)?;
    Ok(path.path)
}

/// `<`, a parent and a Line. The parent counts behind its path.
fn some_parent(
    alloc: Global,
    at: u32,
    marks: &mut Marks,
    cursor: &mut Cursor<'_>,
) -> Result<ConstRef, Fault>
    ensures reads { GivesParent marks.old.here at marks.old cursor.old result marks.new cursor.new }
    ensures bodies { OnOk result (SameBodies marks.old marks.new) }
    ensures shorter { length cursor.new ≤ length cursor.old }
{
    cursor.take(LESS)?;
    let parent = constant(alloc, cursor)?;
    marks.add(Act::GivesParent, at)?;
    cursor.take(LINE)?;
    Ok(parent)
}

/// Perhaps a parent of the class at the place, and a Line.
fn parent(
    alloc: Global,
    at: u32,
    marks: &mut Marks,
    cursor: &mut Cursor<'_>,
) -> Result<Option<ConstRef>, Fault>
    ensures reads { GivesMarkedRule (rules.parent marks.old.here at) marks.old cursor.old result marks.new
        cursor.new }
    ensures bodies { OnOk result (SameBodies marks.old marks.new) }
    ensures shorter { length cursor.new ≤ length cursor.old }
{
    if cursor.sees(LESS) {
        Ok(Some(some_parent(alloc, at, marks, cursor)?))
    } else {
        cursor.take(LINE)?;
        Ok(None)
    }
}

/// `class`, its path, perhaps a parent, and a Line.
pub fn class(
    alloc: Global,
    marks: &mut Marks,
    cursor: &mut Cursor<'_>,
) -> Result<(CPath, Option<ConstRef>), Fault>
    ensures reads { GivesClass marks.old cursor.old result marks.new cursor.new }
    ensures inside { IfOk result (λ c. IsInside marks.old c.0 marks.new) }
    ensures shorter { length cursor.new ≤ length cursor.old }
{
    cursor.take(CLASS)?;
    let path = opened_path(alloc, Act::OpensClass, marks, cursor)?;
    let parent = parent(alloc, path.at, marks, cursor)?;
    Ok((path.path, parent))
}
