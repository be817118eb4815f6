//! Each step of an open request makes progress.
ghost use Rattle.std.specs.Prelude.{ℕ, List, Some};
ghost use Rattle.outside.specs.declared.files.FileEntry.{FileEntry};
ghost use Rattle.by_need_loader.specs.Progress.{Progress};
ghost use Rattle.system_events.specs.declared.event.Cause.{Cause};
ghost use Rattle.system_events.specs.State.{State};
ghost use Rattle.system_laws.specs.Lawful.{IsTable};
ghost use Rattle.request_actor.specs.declared.actor.Stage.{Stage};
ghost use Rattle.request_actor.specs.declared.op.Op.{Op};
ghost use Rattle.seat_steps.specs.Theories.{theories_by};
ghost use Rattle.seat_steps.specs.declared.next.Next.{Next};
ghost use Rattle.seat_steps.specs.declared.next.OpenRequest.{OpenRequest};
ghost use Rattle.seat_steps.specs.declared.next.Stepped.{Stepped};
ghost use Rattle.seat_steps.specs.Stepping.{Steps};
ghost use Rattle.seat_steps.specs.Standing.{IsOpen};
ghost use Rattle.seat_progress.specs.Quiet.{Progresses};

use replay_matter::Replays;

/// A step behind which a request is open still enters something, or leaves fewer steps that enter nothing.
pub fn open_requests_make_progress<M: Replays>()
    ensures { (old new : State M M.Task M.Value M.Program M.Request M.Reply M.Fault) (files : List FileEntry) (k : ℕ)
        (request next : OpenRequest
        (Stage M.Request M.Task M.Waiting (Cause M M.Task M.Value M.Program M.Request M.Reply M.Fault))
        (Next (Op M M.Task M.Value M.Program M.Request M.Reply M.Fault) M.Task
        (Progress M.Task M.Theory.Running M.Theory.Waiting M.Theory.Key) M.Error)) (lines : List (List ℕ)) →
        IsTable M.facts old.counts.program old.table →
        IsOpen M.facts M.talks (theories_by M.Theory.rules M.Theory.runs M.theory_of) old k request →
        Steps M.facts M.talks M.words M.sources (theories_by M.Theory.rules M.Theory.runs M.theory_of) old new files k
        request (Stepped.Went lines (Some next)) → Progresses M.facts M.talks old new request next }
{}
