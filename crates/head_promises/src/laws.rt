//! The laws.
ghost use Rattle.std.specs.Prelude.{◌≡◌, ◌⊎◌, ◌∷◌, ◌++◌, [], ℕ, Bool, List, length};
ghost use Rattle.outside.specs.Tree.{Given};
ghost use Rattle.outside.specs.declared.files.Stamp.{Stamp};
ghost use Rattle.system_events.specs.declared.event.Cause.{Cause};
ghost use Rattle.system_events.specs.declared.event.Entry.{Entry};
ghost use Rattle.system_events.specs.declared.event.Kept.{Kept};
ghost use Rattle.system_events.specs.Legal.{after, IsLegal};
ghost use Rattle.request_laws.specs.Conduct.{IsUnload, AreLoads};
ghost use Rattle.shop_base.specs.Passes.{seat_limit, Made, Gains};
ghost use Rattle.head_promises.specs.Courses.{Wanted, Asks, Replied, Refused, Checked, Fits, IsFreshBy};
ghost use Rattle.head_promises.specs.Courses.{HeadCourse, reloads};

use system_events::Matter;

/// Behind a check a request begins on a fresh generation, whatever other seats enter between.
pub fn begun_requests_are_fresh<M: Matter>()
    ensures { (has_stamps : M.Program → List (List ℕ × Stamp) → Bool) (k : ℕ) (given : List Given) (count : ℕ)
        (now begun : List (Entry M M.Task M.Value M.Program M.Request M.Reply M.Fault))
        (kept : Kept M M.Task M.Value M.Program M.Request M.Reply M.Fault) →
        Checked M.facts has_stamps k given count now → (made : Made k kept now begun) →
        IsFreshBy M.facts has_stamps k given count (now ++ made.between) }
{}

/// A request that was shared, checked, begun, loaded for, ended and unshared has the course of a head that was replied
/// to.
pub fn replied_heads_have_a_course<M: Matter>()
    ensures { (has_stamps : M.Program → List (List ℕ × Stamp) → Bool) (k : ℕ) (q : M.Request) (reply : M.Reply)
        (given : List Given) (check sections : List (Kept M M.Task M.Value M.Program M.Request M.Reply M.Fault))
        (before shared checked begun loaded ended now :
        List (Entry M M.Task M.Value M.Program M.Request M.Reply M.Fault)) →
        Made k Kept.Share before shared → Gains k check shared checked → (check ≡ []) ⊎ IsUnload check →
        Checked M.facts has_stamps k given (length shared) checked → (made : Made k (Kept.Begin q) checked begun) →
        IsLegal M.facts seat_limit (checked ++ made.between) →
        reply ≡ M.facts.reply (after M.facts seat_limit begun).counts.program q →
        AreLoads (M.facts.request_asked (after M.facts seat_limit begun).counts.program q) sections →
        Gains k sections begun loaded → Made k (Kept.End reply) loaded ended → Made k Kept.Unshare ended now →
        HeadCourse M.facts has_stamps k (Asks q) (Replied q reply) given (reloads check)
        (Kept.Share ∷ (check ++ ((Kept.Begin q ∷ (sections ++ Kept.End reply ∷ [])) ++ Kept.Unshare ∷ [])))
        before now }
{}

/// A head that was shared, checked or not, refused and unshared has the course of a head that was refused.
pub fn refused_heads_have_a_course<M: Matter>()
    ensures { (has_stamps : M.Program → List (List ℕ × Stamp) → Bool) (k : ℕ)
        (wanted : Wanted M.Request (Cause M M.Task M.Value M.Program M.Request M.Reply M.Fault))
        (why : Cause M M.Task M.Value M.Program M.Request M.Reply M.Fault)
        (given : List Given) (check : List (Kept M M.Task M.Value M.Program M.Request M.Reply M.Fault))
        (before shared checked ended now : List (Entry M M.Task M.Value M.Program M.Request M.Reply M.Fault)) →
        Made k Kept.Share before shared → Gains k check shared checked → (check ≡ []) ⊎ IsUnload check →
        Fits wanted (Refused why) check given → Made k (Kept.Refuse why) checked ended → Made k Kept.Unshare ended now →
        HeadCourse M.facts has_stamps k wanted (Refused why) given (reloads check)
        (Kept.Share ∷ (check ++ (Kept.Refuse why ∷ Kept.Unshare ∷ []))) before now }
{}
