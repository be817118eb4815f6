//! The laws of loading a program by need, each as the contract of a function that takes the program and a task or a
//! request, answers nothing and takes no memory.
//!
//! | Law | Says |
//! |---|---|
//! | `asked_is_in_tasks` | what a run asks for is a task, whatever is known |
//! | `run_grows`, `asked_is_prefix` | what more is known changes of a run |
//! | `asked_is_known_or_needed`, `tasks_have_ends` | how a run stops |
//! | `known_is_fixed` | what is known is what runs over it come to |
//! | `ring_has_one_blame`, `blame_is_an_error_or_a_ring` | who is to blame for what stays unknown |
//! | `results_stand`, `no_call_names_what_is_not_there` | values name what is there: no call is met that asks nothing |
#![tactic(auto)]

pub mod laws;
