//! By-need loading as a theory: what is known of tasks that need one another's values, and who is to blame for what
//! stays unknown. Tasks, values and errors may be of any types.
//!
//! # An example
//!
//! The run of a task asks for the values of others, one after another, and ends with a value or an error. Here are six
//! tasks.
//!
//! | Task | Its run |
//! |---|---|
//! | `a` | asks for `b` and `c`, and is done with their sum |
//! | `b` | is done with 1 |
//! | `c` | asks for `e` |
//! | `d` | asks for `e` |
//! | `e` | asks for `d` |
//! | `f` | asks for `b`, and raises an error |
//!
//! **Known** is what rounds over all tasks make known: the first round runs each task over nothing, the next over what
//! that one made known, and there are as many rounds as tasks. The first round makes `b` known; no later one adds
//! anything.
//!
//! **Blame**: from a task that stays unknown follow what its run over all that is known waits for, as many steps as
//! there are tasks. `f` waits for nothing, and its error is its blame. From `a` the steps lead over `c` onto the ring
//! of
//! `e` and `d`. A ring is named from its least task, so `a`, `c`, `d` and `e` have one blame: the circle `d`, `e`.
//!
//! **Needs**: the value of `a` rests on `a`, `b`, `c`, `e` and `d`, and so a load of `a` may define no other.
//!
//! # How it is defined
//!
//! | Word | Is | In |
//! |---|---|---|
//! | `Asking` | a run as a tree of questions, with a branch for each value that an answer may have |
//! `specs/Asking.antt` |
//! | `over` | the run over what is known: what it comes to, and what it asked for | `specs/Asking.antt` |
//! | `Rules` | the tasks, their order, and the run of each | `specs/Rounds.antt` |
//! | `known`, `Needs` | what the rounds make known; what a task's value rests on | `specs/Rounds.antt` |
//! | `blame` | the cause of a task that stays unknown | `specs/Blame.antt` |
//! | `Load` | the order in which a load defines tasks | `specs/Order.antt` |
//! | `Lawful` | what is owed of a theory | `specs/Laws.antt` |
//!
//! No definition has a stack, a table that changes or a suspended run: a loader has these, and is proved to come to the
//! same. The order of tasks ties no two of them. Where tasks are ordered by name first, and then by what tells tasks of
//! one name apart, the least of a ring has the least name.
//!
//! A theory is an `impl` of [`Theory`]: its rules, and a proof that they are lawful. Where each run is a tree, `lawful`
//! of `proofs/Trees.antt` leaves two things to prove: that the order is one, and that what is asked for is a task.
//!
//! # The laws
//!
//! Each law is the contract of a function of [`laws`] that does nothing.
//!
//! | Function | Says |
//! |---|---|
//! | `run_grows` | over more that is known an answer stays, with what was asked for, unless it waits for what is now
//! known |
//! | `asked_is_prefix` | what is asked for over less is the front of what is asked for over more |
//! | `asked_is_known_or_lacking` | what is asked for is known, or is what the answer waits for |
//! | `asked_is_a_task` | what is asked for is a task, whether a task asks or a request |
//! | `known_is_fixed` | a task is known exactly where its run over all that is known is done, with that value |
//! | `ring_has_one_blame` | a task has the blame of the task that it waits for, so a ring has one |
//! | `no_blame_ends_otherwise` | where every task's run has a value, an error or a question, a blame is an error or a
//! ring |
//! | `load_has_one_order` | a load of a task over a table has one order of defines, one table in the end and one end |
#![tactic(auto)]

ghost use Rattle.by_need.specs.Laws.{Lawful};
ghost use Rattle.by_need.specs.Rounds.{Rules};

pub mod laws;

/// Tasks, and what a run of each comes to over what is known of the others.
pub trait Theory {
    type Task: Drop;

    type Value: Drop;

    type Error: Drop;
    /// How a run ends that has neither a value nor an error.
    type Other: Drop;

    ghost rules: { Self → Rules Self.Task Self.Value Self.Error Self.Other };

    ghost laws: { (s : Self) → Lawful (rules s) };
}
