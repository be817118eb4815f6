//! What other seats leave of an open request.
ghost use Rattle.std.specs.Prelude.{◌≢◌, ℕ, Option};
ghost use Rattle.by_need_loader.specs.Progress.{Progress};
ghost use Rattle.system_events.specs.declared.event.Cause.{Cause};
ghost use Rattle.system_events.specs.declared.event.Entry.{Entry};
ghost use Rattle.system_events.specs.State.{State};
ghost use Rattle.system_events.specs.Legal.{IsStep};
ghost use Rattle.system_laws.specs.Lawful.{IsExclusive};
ghost use Rattle.request_actor.specs.declared.actor.Stage.{Stage};
ghost use Rattle.request_actor.specs.declared.op.Op.{Op};
ghost use Rattle.seat_steps.specs.Theories.{theories_by};
ghost use Rattle.seat_steps.specs.declared.next.Next.{Next};
ghost use Rattle.seat_steps.specs.declared.next.OpenRequest.{OpenRequest};
ghost use Rattle.seat_steps.specs.Standing.{IsOpen};

use replay_matter::Replays;

/// An open request stands still, whatever step another seat makes.
pub fn open_requests_stay<M: Replays>()
    ensures { (old new : State M M.Task M.Value M.Program M.Request M.Reply M.Fault)
        (entry : Entry M M.Task M.Value M.Program M.Request M.Reply M.Fault) (k : ℕ)
        (request : OpenRequest
        (Stage M.Request M.Task M.Waiting (Cause M M.Task M.Value M.Program M.Request M.Reply M.Fault))
        (Next (Op M M.Task M.Value M.Program M.Request M.Reply M.Fault) M.Task
        (Progress M.Task M.Theory.Running M.Theory.Waiting M.Theory.Key) M.Error)) → IsExclusive old.seats →
        IsStep M.facts old entry new → k ≢ entry.seat →
        IsOpen M.facts M.talks (theories_by M.Theory.rules M.Theory.runs M.theory_of) old k request →
        IsOpen M.facts M.talks (theories_by M.Theory.rules M.Theory.runs M.theory_of) new k request }
{}
