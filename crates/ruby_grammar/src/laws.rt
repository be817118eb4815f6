//! The laws of the grammar, each as the contract of a function that does nothing.
ghost use Rattle.std.specs.Prelude.{◌≡◌, ℕ, List, [], Option};
ghost use Rattle.ruby_types.specs.declared.tree.FileTree.{FileTree};
ghost use Rattle.ruby_token.specs.declared.token.Token.{Token};
ghost use Rattle.ruby_token.specs.declared.fault.LexFault.{LexFault};
ghost use Rattle.ruby_token.specs.Cut.{Lexes, with_fault};
ghost use Rattle.descent.specs.Reading.{Outcome, done};
ghost use Rattle.ruby_grammar.specs.Rules.{ruby, a_tree};
ghost use Rattle.ruby_grammar.specs.Marks.{Mark};
ghost use Rattle.ruby_grammar.specs.Language.{IsFile};
ghost use Rattle.ruby_grammar.specs.Faults.{Kind, FirstFault, IsText, Why, NoText};
ghost use Rattle.ruby_grammar.specs.Answers.{ReadsFile, IsFault, fault_kind, fault_place};
ghost use Rattle.ruby_grammar.specs.Numbers.{NumbersFit};
ghost use Rattle.ruby_grammar.specs.Words.{Word, words_of};

/// The words of a file have one tree.
pub fn one_tree()
    ensures { (ws : List Word) (x y : FileTree) → IsFile ws x → IsFile ws y → x ≡ y }
{}

/// The first fault of words is one, and of one kind.
pub fn one_first_fault()
    ensures { (ws : List Word) (end at at' : ℕ) (kind kind' : Kind) → FirstFault ws end at kind →
        FirstFault ws end at' kind' → (at ≡ at') × (kind ≡ kind') }
{}

/// The words of a file have no fault.
pub fn no_fault_in_a_file()
    ensures { (ws : List Word) (tree : FileTree) (end at : ℕ) (kind : Kind) → IsFile ws tree →
        FirstFault ws end at kind → ⊥ }
{}

/// Words that a reader by descent reads to their end are a file, and it gives its tree.
pub fn what_is_read_is_a_file()
    ensures { (ws : List Word) (tree : FileTree) (ms : List Mark) → ReadsFile ws (done tree ms []) → IsFile ws tree }
{}

/// Where a reader by descent stops is the first fault of the words, of the kind that it tells.
pub fn what_stops_is_the_first_fault()
    ensures { (ws : List Word) (end : ℕ) (o : Outcome ruby a_tree) → ReadsFile ws o → IsFault o →
        FirstFault ws end (fault_place end o) (fault_kind o) }
{}

/// The bytes of a text have one tree.
pub fn one_text()
    ensures { (bytes : List ℕ) (x y : FileTree) → IsText bytes x → IsText bytes y → x ≡ y }
{}

/// The first fault of a file's bytes is one, and there is one reason for it.
pub fn one_reason()
    ensures { (bytes : List ℕ) (at at' : ℕ) (why why' : Why) → NoText bytes at why → NoText bytes at' why' →
        (at ≡ at') × (why ≡ why') }
{}

/// The bytes of a text have no fault.
pub fn no_fault_in_a_text()
    ensures { (bytes : List ℕ) (tree : FileTree) (at : ℕ) (why : Why) → IsText bytes tree → NoText bytes at why → ⊥ }
{}

/// The numbers of a file that is cut into tokens are in range, before a fault of the lexer too.
pub fn numbers_fit()
    ensures { (bytes : List ℕ) (ts : List Token) (e : Option LexFault) → Lexes bytes (with_fault ts e) →
        NumbersFit (words_of bytes ts) }
{}
