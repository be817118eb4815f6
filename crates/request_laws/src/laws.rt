//! The laws.
ghost use Rattle.std.specs.Prelude.{◌≡◌, ℕ, List, [], Some};
ghost use Rattle.system_events.specs.declared.event.Cause.{Cause};
ghost use Rattle.system_events.specs.declared.event.Entry.{Entry};
ghost use Rattle.system_events.specs.declared.event.Kept.{Kept};
ghost use Rattle.system_events.specs.declared.event.Want.{Want};
ghost use Rattle.system_events.specs.State.{State, running_request};
ghost use Rattle.system_events.specs.Legal.{IsStep};
ghost use Rattle.system_events.specs.Steps.{Condition, IsTask};
ghost use Rattle.system_laws.specs.Lawful.{IsExclusive};
ghost use Rattle.request_actor.specs.declared.op.Op.{Op};
ghost use Rattle.request_actor.specs.Answers.{Holds};
ghost use Rattle.request_actor.specs.declared.actor.Stage.{Stage};
ghost use Rattle.request_laws.specs.Conduct.{IsConduct};
ghost use Rattle.request_laws.specs.Making.{Passes};
ghost use Rattle.request_laws.specs.Standing.{GoesOn, LeavesRequest, AreIn, IsServed};

use request_actor::Requests;
use system_events::Matter;

/// A request that runs goes on, whatever step any seat makes, until its own seat ends it: on the same program, and
/// with all that the table has.
pub fn running_requests_go_on<M: Matter>()
    ensures { (old new : State M M.Task M.Value M.Program M.Request M.Reply M.Fault)
        (entry : Entry M M.Task M.Value M.Program M.Request M.Reply M.Fault) (k : ℕ) (q : M.Request) →
        IsExclusive old.seats → IsStep M.facts old entry new → running_request old k ≡ Some q →
        LeavesRequest k entry → GoesOn M.facts old new k q }
{}

/// A request that is served is served still, whatever step any seat makes, until its own seat ends it.
pub fn served_requests_stay<M: Requests>()
    ensures { (old new : State M M.Task M.Value M.Program M.Request M.Reply M.Fault)
        (entry : Entry M M.Task M.Value M.Program M.Request M.Reply M.Fault) (k : ℕ) (q : M.Request)
        (found : List M.Task)
        (stage : Stage M.Request M.Task M.Waiting (Cause M M.Task M.Value M.Program M.Request M.Reply M.Fault)) →
        IsExclusive old.seats → IsStep M.facts old entry new → LeavesRequest k entry →
        IsServed M.facts M.talks old k q found stage → IsServed M.facts M.talks new k q found stage }
{}

/// A task that a request loads is one of the program's, so that its seat may seek or take the load.
pub fn loads_are_allowed<M: Requests>()
    ensures { (s : State M M.Task M.Value M.Program M.Request M.Reply M.Fault) (q : M.Request)
        (found : List M.Task) (task : M.Task) → M.facts.IsRequest q →
        Holds {M = M} M.facts s.counts.program q found (Op.Load task) → IsTask M.facts s (Want.Load task) }
{}

/// A request whose found tasks are in the table may end with the reply that it comes to.
pub fn ends_are_allowed<M: Requests>()
    ensures { (s : State M M.Task M.Value M.Program M.Request M.Reply M.Fault) (k : ℕ) (q : M.Request)
        (found : List M.Task) (reply : M.Reply) → running_request s k ≡ Some q → AreIn M.facts found s →
        Holds {M = M} M.facts s.counts.program q found (Op.End reply) → Condition M.facts s k (Kept.End reply) }
{}

/// A request that asks in order and is answered rightly makes the entries of its conduct.
pub fn requests_conduct<M: Requests>()
    ensures { (p : M.Program) (q : M.Request)
        (entries : List (Kept M M.Task M.Value M.Program M.Request M.Reply M.Fault)) →
        Passes M.facts M.talks p q [] (Stage.Fresh q) entries → IsConduct (M.facts.request_asked p q) q entries }
{}
