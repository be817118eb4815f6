//! What is called around a request.
ghost use Rattle.std.specs.Prelude.{◌≡◌, ℕ, List};

use crate::notes::Notes;

/// What is called around each request. A call leaves the hook and the notes that these functions say, by both before.
pub trait Hook: Send + Drop {
    // The hook after `before`, by the hook and the notes before it.
    ghost before_hook: { Self → List ℕ → Self };

    // The notes after `before`.
    ghost before_notes: { Self → List ℕ → List ℕ };

    // The hook after `after`.
    ghost after_hook: { Self → List ℕ → Self };

    // The notes after `after`.
    ghost after_notes: { Self → List ℕ → List ℕ };

    // The hook after `prepare`.
    ghost prepare_hook: { Self → List ℕ → Self };

    // The notes after `prepare`.
    ghost prepare_notes: { Self → List ℕ → List ℕ };

    /// Called where the outermost wrap begins.
    fn before(&mut self, notes: &mut Notes)
        ensures hook { self.new ≡ before_hook self.old notes.old }
        ensures notes { notes.new ≡ before_notes self.old notes.old };

    /// Called where the outermost wrap ends.
    fn after(&mut self, notes: &mut Notes)
        ensures hook { self.new ≡ after_hook self.old notes.old }
        ensures notes { notes.new ≡ after_notes self.old notes.old };

    /// Called after a reload.
    fn prepare(&mut self, notes: &mut Notes)
        ensures hook { self.new ≡ prepare_hook self.old notes.old }
        ensures notes { notes.new ≡ prepare_notes self.old notes.old };
}
