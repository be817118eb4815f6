//! A boxed hook is a hook, so that what holds of any list of hooks holds of boxed ones of several kinds.
ghost use Rattle.std.specs.Prelude.{◌≡◌, ℕ, List};

use crate::hook::Hook;
use crate::notes::Notes;

impl Hook for Box<dyn Hook> {
    ghost before_hook = { λ b notes. record b { value = (Hook-box b).before_hook b.value notes } };

    ghost before_notes = { λ b notes. (Hook-box b).before_notes b.value notes };

    ghost after_hook = { λ b notes. record b { value = (Hook-box b).after_hook b.value notes } };

    ghost after_notes = { λ b notes. (Hook-box b).after_notes b.value notes };

    ghost prepare_hook = { λ b notes. record b { value = (Hook-box b).prepare_hook b.value notes } };

    ghost prepare_notes = { λ b notes. (Hook-box b).prepare_notes b.value notes };

    fn before(&mut self, notes: &mut Notes) {
        (**self).before(notes);
    }

    fn after(&mut self, notes: &mut Notes) {
        (**self).after(notes);
    }

    fn prepare(&mut self, notes: &mut Notes) {
        (**self).prepare(notes);
    }
}
