//! The laws of runs, each as the contract of a function that does nothing. They hold over any index of constants, any
//! table of built-in methods and any limits.
ghost use Rattle.std.specs.Prelude.{◌≡◌, ◌++◌, Bool, true, List, Option};
ghost use Rattle.by_need.specs.Asking.{Otherwise, over};
ghost use Rattle.by_need.specs.Laws.{Waits};
ghost use Rattle.by_need.specs.Rounds.{Part};
ghost use Rattle.program_places.specs.Places.{Index};
ghost use Rattle.program_places.specs.Tasks.{EachIs, HasTasks};
ghost use Rattle.ruby_types.specs.declared.request.Task.{Task};
ghost use Rattle.ruby_types.specs.declared.value.Value.{Value};
ghost use Rattle.ruby_runs.specs.Asked.{IsRequest};
ghost use Rattle.ruby_runs.specs.BuiltIns.{BuiltIns};
ghost use Rattle.ruby_runs.specs.Runs.{Limits, meaning};
ghost use Rattle.ruby_runs.specs.declared.NoReply.{NoReply};

/// What the run of a task or a request asks for, over whatever is known, is a task: where those that the index owes
/// are tasks, so is each that is asked for.
pub fn asked_is_a_task()
    ensures { (index : Index) (rows : BuiltIns) (limits : Limits) (is_task : Task → Bool) →
        HasTasks index (λ u. is_task u ≡ true) → (t : Task) (K : Task → Option Value) →
        EachIs (λ u. is_task u ≡ true) (over K (meaning index rows limits t)).asked }
{}

/// Only a request ends without a value, an error or a question.
pub fn only_requests_end_otherwise()
    ensures { (index : Index) (rows : BuiltIns) (limits : Limits) (t : Task) (K : Task → Option Value) (end : NoReply) →
        (over K (meaning index rows limits t)).answer ≡ Otherwise end → IsRequest t }
{}

/// An answer stays, with the tasks asked for, while what it waits for is not known.
pub fn run_grows()
    ensures { (index : Index) (rows : BuiltIns) (limits : Limits) (t : Task) (K L : Task → Option Value) → Part K L →
        Waits L (over K (meaning index rows limits t)).answer →
        over L (meaning index rows limits t) ≡ over K (meaning index rows limits t) }
{}

/// What a run asks for over less is the front of what it asks for over more.
pub fn asked_is_prefix()
    ensures { (index : Index) (rows : BuiltIns) (limits : Limits) (t : Task) (K L : Task → Option Value) → Part K L →
        (rest : List Task) × ((over L (meaning index rows limits t)).asked
        ≡ (over K (meaning index rows limits t)).asked ++ rest) }
{}
