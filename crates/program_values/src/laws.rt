//! The laws of what values name, each as the contract of a function that does nothing.
ghost use Rattle.std.specs.Prelude.{◌≡◌, Option};
ghost use Rattle.by_need.specs.Asking.{Done, over};
ghost use Rattle.by_need.specs.Rounds.{Part, known};
ghost use Rattle.ruby_types.specs.declared.request.Task.{Task};
ghost use Rattle.ruby_types.specs.declared.value.Value.{Value};
ghost use Rattle.ruby_runs.specs.Bodies.{Call};
ghost use Rattle.program_theory.specs.Applications.{Application, index_in, rules_of};
ghost use Rattle.program_values.specs.Guarded.{guarded_meaning};
ghost use Rattle.program_values.specs.Standing.{AllStand, IsWritten, NamesNothingNew, ParamsStand, Stands};

/// All that is known of an application stands in it.
pub fn known_values_stand()
    ensures { (app : Application) → NamesNothingNew (index_in app) app.rows → IsWritten (index_in app) →
        AllStand (index_in app) (known (rules_of app)) }
{}

/// What the run of a task or a request is done with stands, over a part of what is known.
pub fn results_stand()
    ensures { (app : Application) → NamesNothingNew (index_in app) app.rows → IsWritten (index_in app) → (t : Task) →
        ParamsStand (index_in app) t → (K : Task → Option Value) → Part K (known (rules_of app)) → (v : Value) →
        ((rules_of app).run t K).answer ≡ Done v → Stands (index_in app) v }
{}

/// Over a part of what is known it makes no difference what a call does whose receiver or argument names what doesn't
/// stand in the application: no such call is met.
pub fn no_call_names_what_is_not_there()
    ensures { (app : Application) → NamesNothingNew (index_in app) app.rows → IsWritten (index_in app) →
        (other : Call) (t : Task) → ParamsStand (index_in app) t → (K : Task → Option Value) →
        Part K (known (rules_of app)) →
        (rules_of app).run t K ≡ over K (guarded_meaning (index_in app) app.rows app.limits other t) }
{}
