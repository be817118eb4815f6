//! The laws.
ghost use Rattle.std.specs.Prelude.{ℕ, List, []};
ghost use Rattle.system_events.specs.declared.event.Cause.{Cause};
ghost use Rattle.system_events.specs.declared.event.Kept.{Kept};
ghost use Rattle.system_events.specs.State.{State};
ghost use Rattle.system_events.specs.Legal.{IsAfter, IsStep};
ghost use Rattle.request_actor.specs.declared.actor.Stage.{Stage};
ghost use Rattle.request_actor.specs.declared.op.Answered.{Answered};
ghost use Rattle.request_actor.specs.declared.op.Op.{Op};
ghost use Rattle.request_actor.specs.Order.{Goes};
ghost use Rattle.request_actor.specs.Answers.{found_after, Holds};
ghost use Rattle.request_laws.specs.Standing.{IsServed};
ghost use Rattle.served_requests.specs.Serving.{IsAnswer};

use request_actor::Requests;

/// Behind its Begin a request is served, and has found nothing yet.
pub fn begun_requests_are_served<M: Requests>()
    ensures { (seats : ℕ) (old new : State M M.Task M.Value M.Program M.Request M.Reply M.Fault) (k : ℕ)
        (q : M.Request) → IsAfter M.facts seats old →
        IsStep M.facts old (record { seat = k; kept = Kept.Begin q }) new →
        IsServed M.facts M.talks new k q [] (Stage.Begins q) }
{}

/// Where its looks are answered by the table, and its loads fail for their blame, a request is served still, and what
/// it asks for next holds of it.
pub fn answered_requests_stay_served<M: Requests>()
    ensures { (seats : ℕ) (s : State M M.Task M.Value M.Program M.Request M.Reply M.Fault) (k : ℕ) (q : M.Request)
        (found : List M.Task)
        (old new : Stage M.Request M.Task M.Waiting (Cause M M.Task M.Value M.Program M.Request M.Reply M.Fault))
        (answered : Answered M.Value M.Error (Cause M M.Task M.Value M.Program M.Request M.Reply M.Fault))
        (asked : Op M M.Task M.Value M.Program M.Request M.Reply M.Fault) → IsAfter M.facts seats s →
        IsServed M.facts M.talks s k q found old → IsAnswer M.facts M.talks s old answered →
        Goes M.talks s.counts.program old answered asked new →
        IsServed M.facts M.talks s k q (found_after old answered found) new
        × Holds M.facts s.counts.program q (found_after old answered found) asked }
{}
