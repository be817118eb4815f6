//! What is shown of printed files, as the contract of a function that does nothing.
ghost use Rattle.std.specs.Prelude.{ℕ, false};
ghost use Rattle.ruby_types.specs.declared.tree.FileTree.{FileTree};
ghost use Rattle.descent.specs.Grammar.{Spells};
ghost use Rattle.ruby_grammar.specs.Rules.{file};
ghost use Rattle.ruby_grammar.specs.Language.{ruby_grammar};
ghost use Rattle.ruby_print_pieces.specs.Pieces.{words_at};
ghost use Rattle.ruby_print_pieces.specs.Definitions.{file_pieces};
ghost use Rattle.ruby_print_pieces.specs.FormedFiles.{FormedFile};

/// The words of a printed tree are a file, and this tree is its tree, where levels enough may nest.
pub fn printed_words_are_a_file()
    ensures { (tree : FileTree) → FormedFile tree → (levels : ℕ)
        × Spells ruby_grammar (file levels false) (words_at 0 (file_pieces tree)) tree }
{}
