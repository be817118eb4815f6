//! The laws of the rounds, each as the contract of a function that does nothing.
ghost use Rattle.std.specs.Prelude.{◌≡◌, ◌⊎◌, ◌↔◌, ◌++◌, true, is_some, Bool, List, Option, Some};
ghost use Rattle.by_need.specs.Asking.{Done, Asks, Otherwise};
ghost use Rattle.by_need.specs.Blame.{Ended, blame};
ghost use Rattle.by_need.specs.Laws.{Waits};
ghost use Rattle.by_need.specs.Rounds.{Part, is_in, is_task, known};
ghost use Rattle.by_need.specs.Order.{Load};

use crate::Theory;

/// An answer stays, with the tasks asked for, while what it waits for is not known.
pub fn run_grows<Y: Theory>(theory: &Y)
    ensures { let r = Y.rules theory.now in (t : Y.Task) (K L : Y.Task → Option Y.Value) → Part K L →
        Waits L (r.run t K).answer → r.run t L ≡ r.run t K }
{}

/// What a run asks for over less is the front of what it asks for over more.
pub fn asked_is_prefix<Y: Theory>(theory: &Y)
    ensures { let r = Y.rules theory.now in (t : Y.Task) (K L : Y.Task → Option Y.Value) → Part K L →
        (rest : List Y.Task) × ((r.run t L).asked ≡ (r.run t K).asked ++ rest) }
{}

/// Each task that a run asks for is known, or is the one that its answer waits for.
pub fn asked_is_known_or_lacking<Y: Theory>(theory: &Y)
    ensures { let r = Y.rules theory.now in (t u : Y.Task) (K : Y.Task → Option Y.Value) →
        is_in r u (r.run t K).asked ≡ true → (is_some (K u) ≡ true) ⊎ ((r.run t K).answer ≡ Asks u) }
{}

/// What a task or a request asks for, over a part of all that is known, is a task.
pub fn asked_is_a_task<Y: Theory>(theory: &Y)
    ensures { let r = Y.rules theory.now in (t u : Y.Task) (K : Y.Task → Option Y.Value) → Part K (known r) →
        is_in r u (r.run t K).asked ≡ true → is_task r u ≡ true }
{}

/// What is known of a task is what its run over all that is known is done with.
pub fn known_is_fixed<Y: Theory>(theory: &Y)
    ensures { let r = Y.rules theory.now in (t : Y.Task) (v : Y.Value) → is_task r t ≡ true →
        (known r t ≡ Some v) ↔ ((r.run t (known r)).answer ≡ Done v) }
{}

/// A task that waits for another over all that is known has its blame: so all tasks of a ring have one.
pub fn ring_has_one_blame<Y: Theory>(theory: &Y)
    ensures { let r = Y.rules theory.now in (t u : Y.Task) → is_task r t ≡ true →
        (r.run t (known r)).answer ≡ Asks u → blame r t ≡ blame r u }
{}

/// Where no task's run ends without a value, an error or a question, no task has such an end for its blame.
pub fn no_blame_ends_otherwise<Y: Theory>(theory: &Y)
    ensures { let r = Y.rules theory.now in
        ((t : Y.Task) (o : Y.Other) → is_task r t ≡ true → (r.run t (known r)).answer ≡ Otherwise o → ⊥) →
        (t : Y.Task) (o : Y.Other) → is_task r t ≡ true → blame r t ≡ Ended o → ⊥ }
{}

/// A load of a task over a table defines the same values in the same order, and comes to the same table and end,
/// however it is done.
pub fn load_has_one_order<Y: Theory>(theory: &Y)
    ensures { let r = Y.rules theory.now in (t : Y.Task) (K L M : Y.Task → Option Y.Value)
        (ds es : List (Y.Task × Y.Value)) (a b : Bool) → Load r K t ds L a → Load r K t es M b →
        (ds ≡ es) × (L ≡ M) × (a ≡ b) }
{}
