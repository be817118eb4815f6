//! Nested wraps with hooks around the outermost one.
ghost use Rattle.std.specs.Prelude.{◌≡◌, ◌<◌};
ghost use Rattle.reloader.specs.Calls.{begun, ended, called, no_wraps};

use crate::calls::{after_each, before_each, prepare_each};
use crate::hook::Hook;
use crate::notes::Notes;
use std::marker::Model;

/// Hooks of one kind, how many wraps are open, and what the hooks noted.
#[derive(Drop)]
pub struct Wraps<H: Drop> {
    depth: u32,
    hooks: Vec<H>,
    notes: Notes,
}

impl<H: Drop> Model for Wraps<H> {
    ghost use Rattle.std.specs.Prelude.{◌≤◌};
    ghost use Rattle.reloader.specs.Calls.{WrapsView};

    ghost Value = { WrapsView H };

    ghost view = { λ w. record { depth = w.depth; hooks = w.hooks.items; notes = w.notes } };

    ghost invariant = { λ w. w.depth ≤ 1000 };
}

impl<H: Hook> Wraps<H> {
    /// These hooks, in the order in which they will be called. No wrap is open.
    pub fn new(hooks: Vec<H>, notes: Notes) -> Wraps<H>
        ensures { result ≡ no_wraps hooks.items notes }
    {
        Wraps {
            depth: 0,
            hooks,
            notes,
        }
    }

    /// How many wraps are open.
    pub fn depth(&self) -> u32
        ensures { result ≡ self.now.depth }
    {
        self.depth
    }

    /// What the hooks noted.
    pub fn notes(&self) -> &Notes
        ensures { result.now ≡ self.now.notes }
    {
        &self.notes
    }

    /// Opens a wrap. Where it is the outermost, each hook's `before` is called first, in order.
    pub fn begin(&mut self)
        requires { self.old.depth < 1000 }
        ensures { self.new ≡ begun H.before_hook H.before_notes self.old }
    {
        if self.depth == 0 {
            before_each(self.hooks.as_mut_slice(), &mut self.notes);
        }
        self.depth += 1;
    }

    /// Closes a wrap. Where it was the outermost, each hook's `after` is called then, in order.
    pub fn end(&mut self)
        requires { 0 < self.old.depth }
        ensures { self.new ≡ ended H.after_hook H.after_notes self.old }
    {
        self.depth -= 1;
        if self.depth == 0 {
            after_each(self.hooks.as_mut_slice(), &mut self.notes);
        }
    }

    /// Calls each hook's `prepare`, in order.
    pub fn prepare(&mut self)
        ensures { self.new ≡ called H.prepare_hook H.prepare_notes self.old }
    {
        prepare_each(self.hooks.as_mut_slice(), &mut self.notes);
    }
}
