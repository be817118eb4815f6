//! What a standing request owes and is owed.
ghost use Rattle.std.specs.Prelude.{ℕ};
ghost use Rattle.system_events.specs.declared.event.Cause.{Cause};
ghost use Rattle.system_events.specs.declared.event.Entry.{Entry};
ghost use Rattle.system_events.specs.declared.event.Kept.{Kept};
ghost use Rattle.system_events.specs.declared.event.Want.{Want};
ghost use Rattle.system_events.specs.State.{State};
ghost use Rattle.system_events.specs.Steps.{Condition};
ghost use Rattle.system_events.specs.Legal.{IsStep};
ghost use Rattle.system_laws.specs.Lawful.{IsExclusive};
ghost use Rattle.request_actor.specs.declared.actor.Stage.{Stage};
ghost use Rattle.request_actor.specs.declared.op.Op.{Op};
ghost use Rattle.request_laws.specs.Standing.{LeavesRequest};
ghost use Rattle.seat_requests.specs.Standing.{IsStanding};

use request_actor::Requests;

/// Where a request stands at what it was asked for, the condition of the event that does it holds.
pub fn standing_requests_are_allowed<M: Requests>()
    ensures begins { (s : State M M.Task M.Value M.Program M.Request M.Reply M.Fault) (k : ℕ) (q : M.Request) →
        IsStanding M.facts M.talks s k (Stage.Begins q) Op.Begin → Condition M.facts s k (Kept.Begin q) }
    ensures ends { (s : State M M.Task M.Value M.Program M.Request M.Reply M.Fault) (k : ℕ)
        (at : Stage M.Request M.Task M.Waiting (Cause M M.Task M.Value M.Program M.Request M.Reply M.Fault))
        (reply : M.Reply) → IsStanding M.facts M.talks s k at (Op.End reply) →
        Condition M.facts s k (Kept.End reply) }
    ensures loads { (s : State M M.Task M.Value M.Program M.Request M.Reply M.Fault) (k : ℕ)
        (at : Stage M.Request M.Task M.Waiting (Cause M M.Task M.Value M.Program M.Request M.Reply M.Fault))
        (task : M.Task) → IsStanding M.facts M.talks s k at (Op.Load task) →
        Condition M.facts s k (Kept.Take (Want.Load task)) }
    ensures refuses { (s : State M M.Task M.Value M.Program M.Request M.Reply M.Fault) (k : ℕ)
        (at : Stage M.Request M.Task M.Waiting (Cause M M.Task M.Value M.Program M.Request M.Reply M.Fault))
        (cause : Cause M M.Task M.Value M.Program M.Request M.Reply M.Fault) →
        IsStanding M.facts M.talks s k at (Op.Refuse cause) → Condition M.facts s k (Kept.Refuse cause) }
{}

/// A request stands still at what it was asked for, whatever step is made that doesn't end it.
pub fn standing_requests_stay<M: Requests>()
    ensures { (old new : State M M.Task M.Value M.Program M.Request M.Reply M.Fault)
        (entry : Entry M M.Task M.Value M.Program M.Request M.Reply M.Fault) (k : ℕ)
        (at : Stage M.Request M.Task M.Waiting (Cause M M.Task M.Value M.Program M.Request M.Reply M.Fault))
        (asked : Op M M.Task M.Value M.Program M.Request M.Reply M.Fault) → IsExclusive old.seats →
        IsStep M.facts old entry new → LeavesRequest k entry → IsStanding M.facts M.talks old k at asked →
        IsStanding M.facts M.talks new k at asked }
{}
