//! What counts from here on.

ghost use Rattle.std.specs.Prelude.{OnOk, ◌++◌};
ghost use Rattle.ruby_grammar.specs.Definitions.{counts};
ghost use Rattle.ruby_grammar.specs.Marks.{assigns};
ghost use Rattle.ruby_parse_marks.specs.Views.{act_view, SameBodies};
ghost use Rattle.ruby_parse_definition.specs.Answers.{Counted, IsInside};

use ruby_parse_cursor::Fault;
use ruby_parse_marks::{Act, Marks};
use ruby_types::Text;

/// Goes into the module or class with this path in the one around, and counts that it is opened so.
pub fn open(marks: &mut Marks, names: &[Text], act: Act, at: u32) -> Result<(), Fault>
    ensures counted { Counted marks.old (counts (marks.old.here ++ names.now) (act_view act) at) result marks.new }
    ensures inside { OnOk result (IsInside marks.old names.now marks.new) }
{
    marks.open(names)?;
    marks.add(act, at)
}

/// Counts that the constant with this path in the module or class around is assigned.
pub fn assign(marks: &mut Marks, names: &[Text], at: u32) -> Result<(), Fault>
    ensures counted { Counted marks.old (counts (marks.old.here ++ names.now) assigns at) result marks.new }
    ensures bodies { OnOk result (SameBodies marks.old marks.new) }
{
    open(marks, names, Act::Assigns, at)?;
    marks.close();
    Ok(())
}
