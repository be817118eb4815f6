//! Trees as texts.

ghost use Rattle.std.specs.Prelude.{◌≡◌, ℕ, List, IfOk};
ghost use Rattle.ruby_grammar.specs.Faults.{IsText};
ghost use Rattle.ruby_print.specs.Definitions as layout;
ghost use Rattle.ruby_print_pieces.specs.Reprinted.{IsDeepText};

use ruby_types::{FileTree, Text};
use std::alloc::{AllocError, Global};

/// The printed text of a file's tree: each item and statement on a line of its own, two spaces a level.
pub fn print(alloc: Global, tree: &FileTree) -> Result<Text, AllocError>
    ensures printed { IfOk result (λ text. text ≡ layout.print tree.now) }
    // Where some text has this tree, the printed text has it too, the limit of nesting left aside.
    ensures read_back { IfOk result (λ text. (bytes : List ℕ) → IsText bytes tree.now → IsDeepText text tree.now) }
{
    ruby_print::print(alloc, tree)
}
