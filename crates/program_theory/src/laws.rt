//! The laws of loading an application's files, each as the contract of a function that does nothing. A task is one of
//! the application's files; what is said of runs holds of requests too.
ghost use Rattle.std.specs.Prelude.{◌≡◌, ◌⊎◌, ◌↔◌, ◌++◌, true, is_some, List, Option, Some};
ghost use Rattle.by_need.specs.Asking.{Done, Asks, Otherwise};
ghost use Rattle.by_need.specs.Blame.{Ended, blame};
ghost use Rattle.by_need.specs.Laws.{Lawful, Waits};
ghost use Rattle.by_need.specs.Rounds.{Part, is_in, is_task, known};
ghost use Rattle.ruby_types.specs.declared.request.Task.{Task};
ghost use Rattle.ruby_types.specs.declared.value.Value.{Value};
ghost use Rattle.ruby_runs.specs.declared.NoReply.{NoReply};
ghost use Rattle.program_theory.specs.Applications.{Application, rules_of};

/// What is owed of rules of loading by need holds of every application.
pub fn applications_are_lawful()
    ensures { (app : Application) → Lawful (rules_of app) }
{}

/// What the run of a task or a request asks for, over whatever is known, is a task.
pub fn asked_is_a_task()
    ensures { (app : Application) (t u : Task) (K : Task → Option Value) →
        is_in (rules_of app) u ((rules_of app).run t K).asked ≡ true → is_task (rules_of app) u ≡ true }
{}

/// The run of a task has a value, an error or a question, over whatever is known.
pub fn tasks_have_ends()
    ensures { (app : Application) (t : Task) (K : Task → Option Value) (end : NoReply) →
        is_task (rules_of app) t ≡ true → ((rules_of app).run t K).answer ≡ Otherwise end → ⊥ }
{}

/// An answer stays, with the tasks asked for, while what it waits for is not known.
pub fn run_grows()
    ensures { (app : Application) (t : Task) (K L : Task → Option Value) → Part K L →
        Waits L ((rules_of app).run t K).answer → (rules_of app).run t L ≡ (rules_of app).run t K }
{}

/// What a run asks for over less is the front of what it asks for over more.
pub fn asked_is_prefix()
    ensures { (app : Application) (t : Task) (K L : Task → Option Value) → Part K L →
        (rest : List Task) × (((rules_of app).run t L).asked ≡ ((rules_of app).run t K).asked ++ rest) }
{}

/// Each task that a run asks for is known, or is the one that its answer waits for.
pub fn asked_is_known_or_lacking()
    ensures { (app : Application) (t u : Task) (K : Task → Option Value) →
        is_in (rules_of app) u ((rules_of app).run t K).asked ≡ true →
        (is_some (K u) ≡ true) ⊎ (((rules_of app).run t K).answer ≡ Asks u) }
{}

/// What is known of a task is what its run over all that is known is done with.
pub fn known_is_fixed()
    ensures { (app : Application) (t : Task) (v : Value) → is_task (rules_of app) t ≡ true →
        (known (rules_of app) t ≡ Some v) ↔ (((rules_of app).run t (known (rules_of app))).answer ≡ Done v) }
{}

/// A task that waits for another over all that is known has its blame: so all tasks of a ring have one.
pub fn ring_has_one_blame()
    ensures { (app : Application) (t u : Task) → is_task (rules_of app) t ≡ true →
        ((rules_of app).run t (known (rules_of app))).answer ≡ Asks u →
        blame (rules_of app) t ≡ blame (rules_of app) u }
{}

/// The blame of a task is an error that was raised, or a ring.
pub fn blame_is_an_error_or_a_ring()
    ensures { (app : Application) (t : Task) (end : NoReply) → is_task (rules_of app) t ≡ true →
        blame (rules_of app) t ≡ Ended end → ⊥ }
{}
