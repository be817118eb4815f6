//! Calls of each hook, one after the other.
ghost use Rattle.std.specs.Prelude.{◌≡◌, ℕ, List};
ghost use Rattle.reloader.specs.Calls.{hooks_after, notes_after};

use crate::hook::Hook;
use crate::notes::Notes;

pub(crate) fn before_each<H: Hook>(hooks: &mut [H], notes: &mut Notes)
    ensures hooks { hooks.new ≡ hooks_after H.before_hook H.before_notes hooks.old notes.old }
    ensures notes { notes.new ≡ notes_after H.before_notes hooks.old notes.old }
{
    if let Some((first, rest)) = hooks.split_first_mut() {
        first.before(notes);
        before_each(rest, notes);
    }
}

pub(crate) fn after_each<H: Hook>(hooks: &mut [H], notes: &mut Notes)
    ensures hooks { hooks.new ≡ hooks_after H.after_hook H.after_notes hooks.old notes.old }
    ensures notes { notes.new ≡ notes_after H.after_notes hooks.old notes.old }
{
    if let Some((first, rest)) = hooks.split_first_mut() {
        first.after(notes);
        after_each(rest, notes);
    }
}

pub(crate) fn prepare_each<H: Hook>(hooks: &mut [H], notes: &mut Notes)
    ensures hooks { hooks.new ≡ hooks_after H.prepare_hook H.prepare_notes hooks.old notes.old }
    ensures notes { notes.new ≡ notes_after H.prepare_notes hooks.old notes.old }
{
    if let Some((first, rest)) = hooks.split_first_mut() {
        first.prepare(notes);
        prepare_each(rest, notes);
    }
}
