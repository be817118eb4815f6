//! What stands around requests.
ghost use Rattle.std.specs.Prelude.{◌≡◌, ◌<◌};
ghost use Rattle.reloader.specs.Calls.{begun, ended, called, no_wraps};
ghost use Rattle.reloader.specs.Depths.{begun_depth, ended_depth};

use crate::hook::Hook;
use crate::notes::Notes;
use crate::wrapping::Wrapping;
use crate::wraps::Wraps;

/// Boxed hooks that are called around requests.
#[derive(Drop)]
pub struct Executor {
    pub wraps: Wraps<Box<dyn Hook>>,
}

impl Executor {
    /// An executor with these hooks, in the order in which they will be called. No wrap is open.
    pub fn new(hooks: Vec<Box<dyn Hook>>, notes: Notes) -> Executor
        ensures { result.wraps ≡ no_wraps hooks.items notes }
    {
        Executor {
            wraps: Wraps::new(hooks, notes),
        }
    }

    /// How many wraps are open.
    pub fn depth(&self) -> u32
        ensures { result ≡ self.now.wraps.depth }
    {
        self.wraps.depth()
    }

    /// What the hooks noted.
    pub fn notes(&self) -> &Notes
        ensures { result.now ≡ self.now.wraps.notes }
    {
        self.wraps.notes()
    }

    /// Opens a wrap. Where it is the outermost, each hook's `before` is called first, in order.
    pub fn begin_wrap(&mut self)
        requires { self.old.wraps.depth < 1000 }
        ensures { self.new.wraps
            ≡ begun ⟦<Box<dyn Hook> as Hook>⟧.before_hook ⟦<Box<dyn Hook> as Hook>⟧.before_notes self.old.wraps }
    {
        self.wraps.begin();
    }

    /// Closes a wrap. Where it was the outermost, each hook's `after` is called then, in order.
    pub fn end_wrap(&mut self)
        requires { 0 < self.old.wraps.depth }
        ensures { self.new.wraps
            ≡ ended ⟦<Box<dyn Hook> as Hook>⟧.after_hook ⟦<Box<dyn Hook> as Hook>⟧.after_notes self.old.wraps }
    {
        self.wraps.end();
    }

    /// Calls each hook's `prepare`, in order.
    pub fn prepared(&mut self)
        ensures { self.new.wraps
            ≡ called ⟦<Box<dyn Hook> as Hook>⟧.prepare_hook ⟦<Box<dyn Hook> as Hook>⟧.prepare_notes self.old.wraps }
    {
        self.wraps.prepare();
    }
}

impl Wrapping for Executor {
    ghost depth_of = { λ e. e.wraps.depth };

    ghost begun = { λ e. record {
      wraps = begun (λ b notes. record b { value = (Hook-box b).before_hook b.value notes })
          (λ b notes. (Hook-box b).before_notes b.value notes) e.wraps;
    } };

    ghost ended = { λ e. record {
      wraps = ended (λ b notes. record b { value = (Hook-box b).after_hook b.value notes })
          (λ b notes. (Hook-box b).after_notes b.value notes) e.wraps;
    } };

    ghost opens = { λ e. begun_depth _ _ e.wraps };

    ghost closes = { λ e. ended_depth _ _ e.wraps };

    fn begin_wrap(&mut self) {
        Executor::begin_wrap(self);
    }

    fn end_wrap(&mut self) {
        Executor::end_wrap(self);
    }
}
