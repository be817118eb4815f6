//! The built-in methods of the profile name nothing new: each class or module in what a row gives is named by the
//! receiver or by an argument. So what is known of an application, with these methods, names only what stands in it.
//!
//! Each law is the contract of a function of [`laws`] that does nothing.
#![tactic(auto)]

pub mod laws;
