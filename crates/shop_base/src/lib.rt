//! The words in which contracts speak of a pass, and their laws.
//!
//! A pass is the right of one caller to share a system with others. Contracts know four things of it (`PassView` in
//! `specs/Passes.antt`): its number, which is its seat; its row; what it has seen, which is a legal history; and the
//! task that it seeks to load. All else follows from what it has seen:
//!
//! | Word | Says |
//! |---|---|
//! | `seen` | the history at its last turn |
//! | `row` | the seat's row after `seen`, and how much room is set aside for it |
//! | `mine` | its own requests in order, each with its reply or the cause of its refusal, and the generation |
//! | `moved` | the same pass, with another row and another `seen` |
//! | `Made` | one turn's event: `seen` grew by entries of others, and then by this one of its own |
//! | `Gains` | what several turns did: of all that `seen` grew by, these are its own acts in order |
//! | `IsReady` | it is of this shop, and at rest |
//!
//! What a pass has seen stays true where nobody else may change it. While it runs a request the program in force stays,
//! and the table only grows; while it is exclusive the table stays (`proofs/Later.antt`).
#![tactic(auto)]

mod row;

pub use row::PassRow;
