//! What is proved of printed files and their tokens, each as the contract of a function that does nothing.
ghost use Rattle.std.specs.Prelude.{◌≡◌};
ghost use Rattle.ruby_types.specs.declared.tree.FileTree.{FileTree};
ghost use Rattle.ruby_token.specs.Cut.{Lexes, done};
ghost use Rattle.ruby_grammar.specs.Words.{words_of};
ghost use Rattle.ruby_print.specs.Definitions.{print};
ghost use Rattle.ruby_print_pieces.specs.Pieces.{words_at};
ghost use Rattle.ruby_print_pieces.specs.Definitions.{file_pieces};
ghost use Rattle.ruby_print_pieces.specs.FormedFiles.{FormedFile};
ghost use Rattle.ruby_print_tokens.specs.Flows.{tokens_at};

/// A printed file is cut into the tokens that it was printed of, and its words are theirs.
pub fn printed_files_are_cut_into_their_pieces()
    ensures { (tree : FileTree) → FormedFile tree → Lexes (print tree) (done (tokens_at 0 (file_pieces tree)))
        × (words_of (print tree) (tokens_at 0 (file_pieces tree)) ≡ words_at 0 (file_pieces tree)) }
{}
