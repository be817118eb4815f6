//! What an entry makes of the seats, the table and the counts.
ghost use Rattle.std.specs.Prelude.{◌≡◌, ◌<◌, ◌≤◌, ◌+◌, ◌-◌, length, true, None, cond, is_some, vec_len, vec_capacity};
ghost use Rattle.system_events.specs.State.{purpose_of};
ghost use Rattle.system_events.specs.Steps.{seats_after, counts_after, kept_of, value_of};
ghost use Rattle.system_core.specs.Seated.{seat_guard};
ghost use Rattle.system_core.specs.Tables.{facts_after, hashes_after};
ghost use Rattle.system_core.specs.Keeping.{CountsFit};

use crate::fact::Fact;
use system_events::{Act, Cause, Counts, Kept, Matter, Want};
use system_places::Places;
use system_seats::{Purpose, SeatTable};

// What a want is for.
pub(crate) fn purpose_of<M: Matter>(want: &Want<M>) -> Purpose
    ensures { result ≡ purpose_of want.now }
{
    match want {
        Want::Load(_) => Purpose::Load,
        Want::Unload => Purpose::Unload,
    }
}

// What the history keeps of an act, and what the table keeps of it.
pub(crate) fn split_act<M: Matter>(act: Act<M>) -> (Kept<M>, Option<M::Value>)
    ensures kept { result.0 ≡ kept_of act }
    ensures value { result.1 ≡ value_of act }
{
    match act {
        Act::Share => (Kept::Share, None),
        Act::Unshare => (Kept::Unshare, None),
        Act::Yield => (Kept::Yield, None),
        Act::Retake => (Kept::Retake, None),
        Act::Seek(want) => (Kept::Seek(want), None),
        Act::Take(want) => (Kept::Take(want), None),
        Act::Release => (Kept::Release, None),
        Act::Resume => (Kept::Resume, None),
        Act::Define(task, value) => (Kept::Define(task), Some(value)),
        Act::Reload(program) => (Kept::Reload(program), None),
        Act::Begin(request) => (Kept::Begin(request), None),
        Act::End(reply) => (Kept::End(reply), None),
        Act::Refuse(cause) => (Kept::Refuse(cause), None),
    }
}

// Moves the seats. The entry will stand at this place.
pub(crate) fn move_seats<M: Matter>(seats: &mut SeatTable, seat: u32, kept: &Kept<M>, place: u64)
    requires seat { seat < length seats.old.lock.rows }
    requires passed { seat_guard seats.old seat kept.now ≡ None }
    ensures { seats.new ≡ seats_after seats.old place seat kept.now }
{
    match kept {
        Kept::Share => seats.share(seat),
        Kept::Unshare => seats.unshare(seat),
        Kept::Yield => seats.yield_share(seat),
        Kept::Retake => seats.retake(seat),
        Kept::Seek(want) => seats.seek(seat, purpose_of(want), place),
        Kept::Take(want) => seats.take(seat, purpose_of(want), place),
        Kept::Release => seats.release(seat),
        Kept::Resume => seats.resume(seat),
        Kept::Define(_) => {}
        Kept::Reload(_) => {}
        Kept::Begin(_) => seats.begin(seat, place),
        Kept::End(_) => seats.end(seat),
        Kept::Refuse(cause) => match cause {
            Cause::Memory => seats.end(seat),
            _ => {}
        },
    }
}

// Moves the table: it gains what is defined, and is empty after a Reload.
pub(crate) fn move_table<M: Matter>(
    facts: &mut Vec<Fact<M>>,
    places: &mut Places,
    kept: &Kept<M>,
    value: Option<M::Value>,
    place: u64,
)
    requires facts_room { is_some value ≡ true → vec_len facts.old < vec_capacity facts.old }
    requires places_room { is_some value ≡ true → 0 < places.old.room }
    ensures facts { facts.new.items ≡ facts_after facts.old.items kept.now value place }
    ensures places { places.new.hashes ≡ hashes_after M.facts places.old.hashes kept.now value }
    ensures facts_left { vec_capacity facts.old - vec_len facts.old
        ≤ (vec_capacity facts.new - vec_len facts.new) + cond (is_some value) 1 0 }
    ensures places_left { places.old.room ≤ places.new.room + cond (is_some value) 1 0 }
{
    match kept {
        Kept::Define(task) => {
            if let Some(value) = value {
                places.push(M::hash(task));
                facts.push_reserved(Fact { place, value });
            }
        }
        Kept::Reload(_) => {
            facts.clear();
            places.clear();
        }
        _ => {}
    }
}

// Moves the counts.
pub(crate) fn move_counts<M: Matter>(counts: &mut Counts<M>, kept: &Kept<M>)
    requires fit { CountsFit counts.old }
    ensures { counts.new ≡ counts_after M.facts counts.old kept.now }
{
    match kept {
        Kept::Reload(program) => {
            let changed = M::changed_bytes(&counts.program, program);
            counts.generation += 1;
            counts.changed_bytes = counts.changed_bytes.saturating_add(changed);
            counts.program = M::share(program);
        }
        Kept::Begin(_) => counts.requests += 1,
        Kept::End(reply) => {
            counts.reply_bytes = counts.reply_bytes.saturating_add(M::reply_bytes(reply));
        }
        Kept::Refuse(cause) => match cause {
            Cause::Memory => {}
            _ => counts.requests += 1,
        },
        _ => {}
    }
}
