//! The law of the trees that texts have, as the contract of a function that does nothing.
ghost use Rattle.std.specs.Prelude.{ℕ, List};
ghost use Rattle.ruby_types.specs.declared.tree.FileTree.{FileTree};
ghost use Rattle.ruby_grammar.specs.Faults.{IsText};
ghost use Rattle.ruby_print_pieces.specs.FormedFiles.{FormedFile};

/// The tree of a text is formed.
pub fn each_text_is_formed()
    ensures { (bytes : List ℕ) (tree : FileTree) → IsText bytes tree → FormedFile tree }
{}
