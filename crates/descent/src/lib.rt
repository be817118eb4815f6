//! Grammars whose rules give values, their sentences and first faults, and what a reader by recursive descent makes of
//! a text. Words, marks, rules and values may be of any types. The crate is a theory: its definitions stand in
//! `specs/`, their laws in `proofs/`, and nothing in it runs.
//!
//! # An example
//!
//! A production gives a value, reads a word that passes a test, calls a rule, or stands at a mark; what comes next may
//! turn on the word or value that was read. Here are two rules whose values are trees. The second carries the tree of
//! what stands before it.
//!
//! | Rule | Its alternatives |
//! |---|---|
//! | `sum` | read a name x, and go on as `more x` |
//! | `more x` | read `-`, read a name y, and go on as `more (x - y)`; or give x |
//!
//! | Words | By the rule `sum` they |
//! |---|---|
//! | `a - b - c` | are a text with the value `(a - b) - c`: called are `more a`, `more (a - b)`, `more` of the value |
//! | `a - -` | are none, and their first fault is the second `-`: `a -` begins some sentence, `a - -` begins none |
//! | `a -` | are none, and their first fault is their end |
//!
//! A mark says that something counts from there on. Where each name of a list stands before its mark and a mark
//! clashes with an earlier one of the same name, `X Y` is a text; `X X` is none, and its fault is the second mark.
//!
//! # Words that mean one thing
//!
//! | Word | Means |
//! |---|---|
//! | sentence | words and marks that a rule says, with their value (`Says`) |
//! | text | words that with some marks are a sentence in which no mark clashes with one before it (`Spells`) |
//! | begins | some sentence goes on from these words (`Begins`) |
//! | stops | up to there some sentence goes on, and none with the word that stands there (`Stops`) |
//! | clashes | a mark clashes, and the word at hand could only stand behind it (`Clashes`) |
//! | reads | how a reader goes over the words: it chooses by the next word or two, and never goes back (`Reads`) |
//!
//! # What is proved
//!
//! Let the grammar and the reader's choices be `Lawful`: each law of it is a fact of single rules, as that what is
//! chosen is an alternative, and that what follows a call may follow the called rule. Then reading is exact
//! (`proofs/Theorems.antt`).
//!
//! - `read`, `found`: words are read to their end with a value where they are a text with it, and only there.
//! - `one_tree`: a text has one value.
//! - `stops`, `twice`: where the reading ends otherwise stands the first fault of the words.
//! - `one_stop`, `one_clash`: there is one first fault.
//!
//! Why a reader stopped is told by a `Lift`, a rule beside each rule that has its alternatives and more
//! (`proofs/Lifts.antt`). Where a level more lets a sentence go on, for one, the words nest too deep.
//!
//! Nothing is proved of progress: words that are no text may have no reading, as where a rule calls itself before any
//! word.
#![tactic(auto)]
