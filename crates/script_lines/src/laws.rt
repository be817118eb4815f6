//! What holds of each turn of a script.
ghost use Rattle.std.specs.Prelude.{◌≡◌, ◌<◌, length};
ghost use Rattle.script_lines.specs.declared.instruction.Told.{Told};
ghost use Rattle.script_lines.specs.Grammar.{IsOfGrammar};
ghost use Rattle.script_lines.specs.Reading.{Left, next_turn, Tells};

/// An instruction that a script tells is of the grammar, and fewer lines are left behind it.
pub fn told_lines_are_of_the_grammar()
    ensures grammar { (left later : Left) (told : Told) → next_turn left ≡ Tells told later →
        IsOfGrammar told.instruction }
    ensures fewer { (left later : Left) (told : Told) → next_turn left ≡ Tells told later →
        length later.lines < length left.lines }
{}
