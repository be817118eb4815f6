//! The laws of the facts of programs, each as the contract of a function that does nothing. They speak of one
//! application, that of the program in force.
ghost use Rattle.std.specs.Prelude.{◌≡◌, ◌↔◌, true, List, Some, Contains};
ghost use Rattle.by_need.specs.Rounds.{Needs as NeedsByRules, is_in, is_task, known};
ghost use Rattle.ruby_types.specs.declared.request.Task.{Task};
ghost use Rattle.ruby_types.specs.declared.value.Value.{Value};
ghost use Rattle.task_keys.specs.Same.{same_task};
ghost use Rattle.program_files.specs.Tasks.{tasks_of};
ghost use Rattle.program_theory.specs.Applications.{Application, rules_of};
ghost use Rattle.system_events.specs.Facts.{Needs};
ghost use Rattle.program_facts.specs.Generations.{asked_by};

/// Two tasks are the same by their test exactly where they are equal.
pub fn same_is_equal()
    ensures { (a b : Task) → (same_task a b ≡ true) ↔ (a ≡ b) }
{}

/// A list has a task exactly where the rules' test finds it there.
pub fn list_has_what_is_found()
    ensures { (app : Application) (t : Task) (ts : List Task) → (is_in (rules_of app) t ts ≡ true) ↔ Contains ts t }
{}

/// What a task or a request asks for over all that is known is a task of the program.
pub fn asked_is_a_task()
    ensures { (app : Application) (t u : Task) → Contains (asked_by app t) u → Contains (tasks_of app.files) u }
{}

/// What is known is of tasks of the program.
pub fn known_is_of_tasks()
    ensures { (app : Application) (t : Task) (v : Value) → known (rules_of app) t ≡ Some v →
        Contains (tasks_of app.files) t }
{}

/// A task needs by events exactly what it needs by the rules.
pub fn needs_by_events_and_rules()
    ensures { (app : Application) (t u : Task) → NeedsByRules (rules_of app) t u ↔ Needs (asked_by app) t u }
{}
