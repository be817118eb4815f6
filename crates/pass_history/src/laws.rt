//! The laws.
ghost use Rattle.std.specs.Prelude.{◌≡◌, ◌≤◌, ◌∷◌, ◌++◌, [], ℕ, Bool, true, List, length};
ghost use Rattle.turn_lock.specs.Entries.{Lags};
ghost use Rattle.system_events.specs.declared.event.Entry.{Entry};
ghost use Rattle.system_events.specs.declared.event.Kept.{Kept};
ghost use Rattle.system_events.specs.Legal.{IsLegal};
ghost use Rattle.shop_base.specs.Passes.{seat_of, seat_limit, Made, Gains};
ghost use Rattle.shop_base.specs.Mine.{Item, item_of, generation_after, request_after};
ghost use Rattle.pass_history.specs.Courses.{Course, generation_in, request_in};
ghost use Rattle.pass_history.specs.Freshness.{in_force, IsFresh, NoneReloads};

use system_events::Matter;

/// A turn adds its act, and the item that the act makes of the request that runs. Other seats' entries add nothing.
pub fn turns_add_items<M: Matter>()
    ensures made { (k : ℕ) (kept : Kept M M.Task M.Value M.Program M.Request M.Reply M.Fault)
        (before now : List (Entry M M.Task M.Value M.Program M.Request M.Reply M.Fault)) →
        IsLegal M.facts seat_limit before → Made k kept before now →
        (generation : ℕ) × ((generation_after generation kept ≡ generation_in now)
        × (Course k (kept ∷ []) (item_of (request_in k before) generation kept) before now
        × (request_in k now ≡ request_after (request_in k before) kept))) }
    ensures lags { (k : ℕ) (before now : List (Entry M M.Task M.Value M.Program M.Request M.Reply M.Fault)) →
        IsLegal M.facts seat_limit before → Lags seat_of k before now →
        Course k [] [] before now × (request_in k now ≡ request_in k before) }
{}

/// Turns after turns add what both add.
pub fn turns_add_up<M: Matter>()
    ensures { (k : ℕ) (xs ys : List (Kept M M.Task M.Value M.Program M.Request M.Reply M.Fault))
        (is js : List (Item M M.Task M.Value M.Program M.Request M.Reply M.Fault))
        (a b c : List (Entry M M.Task M.Value M.Program M.Request M.Reply M.Fault)) →
        Course k xs is a b → Course k ys js b c → Course k (xs ++ ys) (is ++ js) a c }
{}

/// Where stamps were in force and the seat itself has made no Reload since, the generation is fresh.
pub fn compared_stamps_stay_fresh<M: Matter, S: Drop>()
    ensures { (has_stamps : M.Program → S → Bool) (k : ℕ) (stamps : S) (count : ℕ)
        (at begun : List (Entry M M.Task M.Value M.Program M.Request M.Reply M.Fault))
        (acts : List (Kept M M.Task M.Value M.Program M.Request M.Reply M.Fault)) →
        IsLegal M.facts seat_limit at → count ≤ length at → in_force M.facts has_stamps at stamps ≡ true →
        Gains k acts at begun → NoneReloads acts → IsFresh M.facts has_stamps k stamps count begun }
{}
