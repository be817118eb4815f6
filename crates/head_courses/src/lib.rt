//! How far a pass is with one head, from its Share to its Unshare, and what it comes to.
//!
//! | Word (`specs/Standing.antt`) | Says |
//! |---|---|
//! | `HasShared` | it shares, and its check entered these acts |
//! | `HasChecked` | its check lets the request begin, on a fresh generation |
//! | `HasRefusal` | it is to be refused for this cause |
//! | `HasBegun` | its request runs, and has loaded so far |
//! | `HasDone` | the head is over: its course, its entries and its items |
//!
//! The laws lead from one to the next, by the turns that a pass takes. They know nothing of a shop.
//!
//! # An example
//!
//! | Turn of the pass | Then |
//! |---|---|
//! | Share | `HasShared` |
//! | compares the stamps, which are those in force | `HasChecked` |
//! | Begin | `HasBegun` |
//! | Take, Define, Release | `HasBegun` |
//! | End, Unshare | `HasDone` with the request, its reply and the generation as its item |
#![tactic(auto)]
