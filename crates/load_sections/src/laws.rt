//! How a load section opens, and what other seats leave of it.
ghost use Rattle.std.specs.Prelude.{◌≢◌, ℕ, List, [], Option, Contains};
ghost use Rattle.by_need_loader.specs.Progress.{Progress, begun};
ghost use Rattle.system_events.specs.declared.event.Kept.{Kept};
ghost use Rattle.system_events.specs.declared.event.Want.{Want};
ghost use Rattle.system_events.specs.declared.event.Entry.{Entry};
ghost use Rattle.system_events.specs.State.{State};
ghost use Rattle.system_events.specs.Legal.{IsAfter, IsStep};
ghost use Rattle.load_sections.specs.Theories.{IsOfTheory};
ghost use Rattle.load_sections.specs.Sections.{table_at, IsOpenFor, IsLoading};

use by_need_loader::Program;
use system_events::Matter;

/// A load section goes on, whatever step another seat makes: its seat stays exclusive, and the table stays as it is.
pub fn load_sections_stay<Y: Program, M: Matter<Task = Y::Task, Value = Y::Value>>()
    ensures { (theory : Y) (sought : Y.Task) (at_first : Y.Task → Option Y.Value)
        (old new : State M Y.Task Y.Value M.Program M.Request M.Reply M.Fault)
        (entry : Entry M Y.Task Y.Value M.Program M.Request M.Reply M.Fault) (k : ℕ)
        (made : List (Y.Task × Y.Value)) (loader : Progress Y.Task Y.Running Y.Waiting Y.Key) →
        IsStep M.facts old entry new → k ≢ entry.seat →
        IsLoading M.facts (Y.rules theory) (Y.runs theory) sought at_first old k made loader →
        IsLoading M.facts (Y.rules theory) (Y.runs theory) sought at_first new k made loader }
{}

/// A Take of a load opens a section of its task: its seat is exclusive for it.
pub fn taken_loads_are_open<M: Matter>()
    ensures { (seats : ℕ) (old new : State M M.Task M.Value M.Program M.Request M.Reply M.Fault) (k : ℕ)
        (sought : M.Task) → IsAfter M.facts seats old →
        IsStep M.facts old (record { seat = k; kept = Kept.Take (Want.Load sought) }) new → IsOpenFor new k sought }
{}

/// On an open section of a task of the program its loader begins, and then goes on rightly.
pub fn open_sections_are_loading<Y: Program, M: Matter<Task = Y::Task, Value = Y::Value>>()
    ensures { (theory : Y) (seats : ℕ) (s : State M Y.Task Y.Value M.Program M.Request M.Reply M.Fault) (k : ℕ)
        (sought : Y.Task) → IsAfter M.facts seats s → IsOfTheory M.facts s.counts.program (Y.rules theory) →
        Contains (M.facts.tasks s.counts.program) sought → IsOpenFor s k sought →
        IsLoading M.facts (Y.rules theory) (Y.runs theory) sought (table_at M.facts s) s k [] (begun sought) }
{}
