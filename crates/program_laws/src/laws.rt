//! The laws of programs. `rules_in` has what a program's tasks, runs, known values and blames are.
ghost use Rattle.std.specs.Prelude.{◌≡◌, ◌⊎◌, ◌↔◌, ◌++◌, true, is_some, Contains, List, Option, None, Some};
ghost use Rattle.by_need.specs.Asking.{Asks, Done, Otherwise, over};
ghost use Rattle.by_need.specs.Blame.{Ended, blame};
ghost use Rattle.by_need.specs.Laws.{Waits};
ghost use Rattle.by_need.specs.Rounds.{Part, known};
ghost use Rattle.program_index.specs.Program.{index_in};
ghost use Rattle.program_values.specs.Guarded.{guarded_meaning};
ghost use Rattle.program_values.specs.Standing.{Stands};
ghost use Rattle.ruby_machine_names.specs.Profile.{profile};
ghost use Rattle.ruby_runs.specs.Bodies.{Call};
ghost use Rattle.ruby_runs.specs.Runs.{run_limits};
ghost use Rattle.ruby_runs.specs.declared.NoReply.{NoReply};
ghost use Rattle.ruby_types.specs.declared.request.Task.{Task};
ghost use Rattle.ruby_types.specs.declared.value.Value.{Value};
ghost use Rattle.program_laws.specs.Programs.{IsTaskOf, LeadsTo, MayRun, rules_in};

use program_index::Program;
use ruby_types::Task;

/// An answer stays, with the tasks asked for, while what it waits for is not known.
pub fn run_grows(program: &Program, task: &Task)
    ensures { let run = (rules_in program.now).run task.now in
        (K L : Task → Option Value) → Part K L → Waits L (run K).answer → run L ≡ run K }
{
    let _ = program;
    let _ = task;
}

/// What a run asks for over less is the front of what it asks for over more.
pub fn asked_is_prefix(program: &Program, task: &Task)
    ensures { let run = (rules_in program.now).run task.now in
        (K L : Task → Option Value) → Part K L → (rest : List Task) × ((run L).asked ≡ (run K).asked ++ rest) }
{
    let _ = program;
    let _ = task;
}

/// What a run asks for, whatever is known, is a task of the program. That holds of requests too, and of any task.
pub fn asked_is_in_tasks(program: &Program, task: &Task)
    ensures { (K : Task → Option Value) (u : Task) → Contains ((rules_in program.now).run task.now K).asked u →
        IsTaskOf program.now u }
{
    let _ = program;
    let _ = task;
}

/// Each task that a run asks for is known, or is the one that its answer waits for.
pub fn asked_is_known_or_needed(program: &Program, task: &Task)
    ensures { let run = (rules_in program.now).run task.now in
        (K : Task → Option Value) (u : Task) → Contains (run K).asked u →
        (is_some (K u) ≡ true) ⊎ ((run K).answer ≡ Asks u) }
{
    let _ = program;
    let _ = task;
}

/// The run of a task has a value, an error or a question, whatever is known: only a request has another end.
pub fn tasks_have_ends(program: &Program, task: &Task)
    ensures { (K : Task → Option Value) (end : NoReply) → IsTaskOf program.now task.now →
        ((rules_in program.now).run task.now K).answer ≡ Otherwise end → ⊥ }
{
    let _ = program;
    let _ = task;
}

/// What is known is a fixed point: of a task it is what its run over all that is known is done with, and of what is no
/// task nothing.
pub fn known_is_fixed(program: &Program, task: &Task)
    ensures tasks { let r = rules_in program.now in
        IsTaskOf program.now task.now → (v : Value) →
        (known r task.now ≡ Some v) ↔ ((r.run task.now (known r)).answer ≡ Done v) }
    ensures others { (v : Value) → known (rules_in program.now) task.now ≡ Some v → IsTaskOf program.now task.now }
{
    let _ = program;
    let _ = task;
}

/// Tasks that wait for one another, over all that is known, have one blame: so all tasks of a ring have.
pub fn ring_has_one_blame(program: &Program, task: &Task)
    ensures { let r = rules_in program.now in
        IsTaskOf program.now task.now → (u : Task) → LeadsTo r task.now u → blame r task.now ≡ blame r u }
{
    let _ = program;
    let _ = task;
}

/// The blame of a task is an error that was raised, or a ring.
pub fn blame_is_an_error_or_a_ring(program: &Program, task: &Task)
    ensures { (end : NoReply) → IsTaskOf program.now task.now →
        blame (rules_in program.now) task.now ≡ Ended end → ⊥ }
{
    let _ = program;
    let _ = task;
}

/// What a run over a part of what is known is done with stands in the program: each class or module in it is there, and
/// each object is of a class that its file opens.
pub fn results_stand(program: &Program, task: &Task)
    ensures { let r = rules_in program.now in
        MayRun task.now → (K : Task → Option Value) → Part K (known r) → (v : Value) →
        (r.run task.now K).answer ≡ Done v → Stands (index_in program.now) v }
{
    program.is_of_its_files();
    let _ = task;
}

/// Over a part of what is known no call is met whose receiver or argument names what isn't there, for which nothing
/// would be asked: it makes no difference what such a call does.
pub fn no_call_names_what_is_not_there(program: &Program, task: &Task)
    ensures { let r = rules_in program.now in
        MayRun task.now → (other : Call) (K : Task → Option Value) → Part K (known r) →
        r.run task.now K ≡ over K (guarded_meaning (index_in program.now) profile run_limits other task.now) }
{
    program.is_of_its_files();
    let _ = task;
}
