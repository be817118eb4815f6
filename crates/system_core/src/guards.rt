//! The first true guard of an event's row.
ghost use Rattle.std.specs.Prelude.{◌≡◌, ◌<◌, length};
ghost use Rattle.system_seats.specs.declared.guard.Guard.{Guard};
ghost use Rattle.system_seats.specs.Seats.{runs_at};
ghost use Rattle.system_seats.specs.Guards.{◌when◌else◌};
ghost use Rattle.system_events.specs.declared.event.Kept.{Kept};
ghost use Rattle.system_events.specs.State.{in_table, same_want, is_wanted};
ghost use Rattle.system_events.specs.Guards.{guard_of, refuse_guard, reload_limits, request_limits};
ghost use Rattle.system_events.specs.Steps.{kept_of};

use crate::moves::purpose_of;
use crate::system::System;
use system_events::{Act, Cause, Counts, Event, Matter, Want};
use system_seats::Guard;

fn same_want<M: Matter>(a: &Want<M>, b: &Want<M>) -> bool
    ensures { result ≡ same_want M.facts a.now b.now }
{
    match (a, b) {
        (Want::Load(task), Want::Load(other)) => M::same_task(task, other),
        (Want::Unload, Want::Unload) => true,
        _ => false,
    }
}

// The limits of a Reload.
fn reload_limit<M: Matter>(counts: &Counts<M>, program: &M::Program) -> Option<Guard>
    ensures { result ≡ reload_limits M.facts counts.now program.now }
{
    if M::same_stamps(program, &counts.program) {
        return Some(Guard::SameStamps);
    }
    if counts.generation >= 4096 {
        return Some(Guard::GenerationsFull(4096));
    }
    let changed = M::changed_bytes(&counts.program, program);
    let kept = counts.changed_bytes.saturating_add(changed);
    if kept > 536_870_912 {
        return Some(Guard::KeptFull(kept));
    }
    None
}

// The limits of a request.
fn request_limit<M: Matter>(counts: &Counts<M>) -> Option<Guard>
    ensures { result ≡ request_limits counts.now }
{
    if counts.requests >= 100_000 {
        return Some(Guard::RequestsFull(100_000));
    }
    if counts.reply_bytes >= 268_435_456 {
        return Some(Guard::RepliesFull(counts.reply_bytes));
    }
    None
}

impl<M: Matter> System<M> {
    // Whether it is a load of a task of the table.
    fn has_want(&self, want: &Want<M>) -> bool
        ensures { result ≡ in_table M.facts self.now.state want.now }
    {
        match want {
            Want::Load(task) => self.is_defined(task),
            Want::Unload => false,
        }
    }

    // Whether the seat's section is this want.
    fn is_wanted(&self, seat: u32, want: &Want<M>) -> bool
        requires { seat < length self.now.state.seats.lock.rows }
        ensures { result ≡ is_wanted M.facts self.now.state seat want.now }
    {
        match self.section_want(seat) {
            None => false,
            Some(other) => same_want(other, want),
        }
    }

    // The first guard of the event's row that is true.
    pub(crate) fn first_guard(&self, event: &Event<M>) -> Option<Guard>
        requires { event.now.seat < length self.now.state.seats.lock.rows }
        ensures { result ≡ guard_of M.facts self.now.state event.now.seat (kept_of event.now.act) }
    {
        let seat = event.seat;
        match &event.act {
            Act::Share => self.seats.share_guard(seat),
            Act::Unshare => self.seats.unshare_guard(seat),
            Act::Yield => self.seats.yield_guard(seat),
            Act::Retake => self.seats.retake_guard(seat),
            Act::Seek(want) => self
                .seats
                .seek_guard(seat, purpose_of(want), self.has_want(want)),
            Act::Take(want) => self.seats.take_guard(
                seat,
                purpose_of(want),
                self.has_want(want),
                self.is_wanted(seat, want),
            ),
            Act::Release => self.seats.release_guard(seat),
            Act::Resume => self.seats.resume_guard(seat),
            Act::Define(task, _) => self.define_guard(seat, task),
            Act::Reload(program) => self.reload_guard(seat, program),
            Act::Begin(request) => self.begin_guard(seat, request),
            Act::End(_) => self.seats.end_guard(seat),
            Act::Refuse(cause) => self.refuse_guard(seat, cause),
        }
    }

    fn define_guard(&self, seat: u32, task: &M::Task) -> Option<Guard>
        requires { seat < length self.now.state.seats.lock.rows }
        ensures { result ≡ guard_of M.facts self.now.state seat (Kept.Define task.now) }
    {
        match self.seats.define_guard(seat) {
            Some(guard) => Some(guard),
            None => {
                if self.is_defined(task) {
                    Some(Guard::InTable)
                } else {
                    None
                }
            }
        }
    }

    fn reload_guard(&self, seat: u32, program: &M::Program) -> Option<Guard>
        requires { seat < length self.now.state.seats.lock.rows }
        ensures { result ≡ guard_of M.facts self.now.state seat (Kept.Reload program.now) }
    {
        match self.seats.reload_guard(seat) {
            Some(guard) => Some(guard),
            None => reload_limit(&self.counts, program),
        }
    }

    fn begin_guard(&self, seat: u32, request: &M::Request) -> Option<Guard>
        requires { seat < length self.now.state.seats.lock.rows }
        ensures { result ≡ guard_of M.facts self.now.state seat (Kept.Begin request.now) }
    {
        let _ = request;
        match self.seats.begin_guard(seat) {
            Some(guard) => Some(guard),
            None => request_limit(&self.counts),
        }
    }

    fn refuse_guard(&self, seat: u32, cause: &Cause<M>) -> Option<Guard>
        requires { seat < length self.now.state.seats.lock.rows }
        ensures { result ≡ refuse_guard M.facts self.now.state seat cause.now }
    {
        match cause {
            Cause::Memory => self.seats.end_guard(seat),
            _ => self.refusal_guard(seat),
        }
    }

    // The guards of a refusal that is not for want of memory.
    fn refusal_guard(&self, seat: u32) -> Option<Guard>
        requires { seat < length self.now.state.seats.lock.rows }
        ensures { result ≡ (Guard.Running when runs_at self.now.state.seats seat
            else request_limits self.now.state.counts) }
    {
        if self.seats.runs(seat) {
            Some(Guard::Running)
        } else {
            request_limit(&self.counts)
        }
    }
}
