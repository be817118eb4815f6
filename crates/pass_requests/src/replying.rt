//! From a request's Begin to its reply.
ghost use Rattle.std.specs.Prelude.{◌≡◌, ◌≤◌, List, [], Contains, IfOk};
ghost use Rattle.turn_lock.specs.Entries.{Lags};
ghost use Rattle.system_events.specs.declared.event.Kept.{Kept};
ghost use Rattle.system_events.specs.Legal.{IsLegal};
ghost use Rattle.system_events.specs.Steps.{Condition};
ghost use Rattle.request_actor.specs.declared.actor.Stage.{Stage};
ghost use Rattle.request_laws.specs.Standing.{IsServed};
ghost use Rattle.shop_base.specs.Rows.{IsRunning};
ghost use Rattle.shop_base.specs.Passes.{Gains, seat_of, seat_limit, seen_state, moved};
ghost use Rattle.pass_requests.specs.Serving.{AnswersLook, AnswersLoad, HasLoaded, MayLoad};

use crate::calls::PassCalls;
use request_actor::{Actor, Answered, Op};
use request_loads::Loads;
use std::alloc::{AllocError, Global};
use std::sync::Wait;
use system_events::Cause;

// Answers a look by the table.
fn look<M: Loads, P: PassCalls<M>, R: Wait>(
    rt: &R,
    pass: &mut P,
    task: &M::Task,
) -> Result<Answered<M::Value, M::Error, Cause<M>>, AllocError>
    ensures same { P.pass pass.new ≡ moved (P.pass pass.old) (P.pass pass.old).row (P.pass pass.new).seen }
    ensures seen { Lags seat_of (P.pass pass.old).number (P.pass pass.old).seen (P.pass pass.new).seen }
    ensures answers { IfOk result
        (λ answered. AnswersLook M.facts (seen_state M.facts (P.pass pass.new)) task.now answered) }
    ensures given { P.given pass.new ≡ P.given pass.old }
    ensures legal { IsLegal M.facts seat_limit (P.pass pass.new).seen }
{
    let found = pass.lookup(rt, task);
    pass.tells();
    match found? {
        Some(value) => Ok(Answered::Found(value)),
        None => Ok(Answered::Missing),
    }
}

// Answers a load by its section.
fn load<M: Loads, P: PassCalls<M>, R: Wait>(
    rt: &R,
    alloc: Global,
    pass: &mut P,
    task: &M::Task,
) -> Result<Answered<M::Value, M::Error, Cause<M>>, AllocError>
    requires runs { IsRunning (P.pass pass.old).row.seat }
    requires room { 4 ≤ (P.pass pass.old).row.entries }
    requires task { Contains (M.facts.tasks (seen_state M.facts (P.pass pass.old)).counts.program) task.now }
    ensures same { P.pass pass.new ≡ moved (P.pass pass.old) (P.pass pass.old).row (P.pass pass.new).seen }
    ensures section { (acts : List (Kept M M.Task M.Value M.Program M.Request M.Reply M.Fault))
        × (MayLoad task.now acts
        × Gains (P.pass pass.old).number acts (P.pass pass.old).seen (P.pass pass.new).seen) }
    ensures answers { IfOk result
        (λ answered. AnswersLoad M.facts M.talks (seen_state M.facts (P.pass pass.new)) task.now answered) }
    ensures given { P.given pass.new ≡ P.given pass.old }
    ensures legal { IsLegal M.facts seat_limit (P.pass pass.new).seen }
{
    let loaded = pass.load(rt, alloc, task);
    pass.tells();
    match loaded? {
        Some(error) => Ok(Answered::Failed(error)),
        None => Ok(Answered::Done),
    }
}

/// Goes on with a request that has begun, on the program of its Begin, up to its reply. After want of memory the
/// request runs still, and its actor is only dropped.
pub fn reply_of<M: Loads, P: PassCalls<M>, R: Wait>(
    rt: &R,
    alloc: Global,
    pass: &mut P,
    program: &M::Program,
    actor: &mut Actor<M>,
) -> Result<M::Reply, AllocError>
    requires runs { IsRunning (P.pass pass.old).row.seat }
    requires room { 4 ≤ (P.pass pass.old).row.entries }
    requires program { (seen_state M.facts (P.pass pass.old)).counts.program ≡ program.now }
    requires begun { (q : M.Request) × ((actor.old ≡ Stage.Begins q)
        × IsServed M.facts M.talks (seen_state M.facts (P.pass pass.old)) (P.pass pass.old).number q []
        (Stage.Begins q)) }
    ensures same { P.pass pass.new ≡ moved (P.pass pass.old) (P.pass pass.old).row (P.pass pass.new).seen }
    // Its own acts are load sections, each of a task that the request asks for.
    ensures loads { (q : M.Request) → actor.old ≡ Stage.Begins q →
        IsServed M.facts M.talks (seen_state M.facts (P.pass pass.old)) (P.pass pass.old).number q []
        (Stage.Begins q) →
        HasLoaded M.facts (P.pass pass.old).number q program.now (P.pass pass.old).seen
        (P.pass pass.new).seen }
    // The request may end with it.
    ensures reply { IfOk result (λ reply. Condition M.facts (seen_state M.facts (P.pass pass.new))
        (P.pass pass.old).number (Kept.End reply)) }
    ensures given { P.given pass.new ≡ P.given pass.old }
{
    let mut answered = Answered::Done;
    pass.tells();
    'turns: for _ in rt.forever() {
        match actor.next(program, answered)? {
            Op::Look(task) => answered = look::<M, P, R>(rt, pass, &task)?,
            Op::Load(task) => answered = load::<M, P, R>(rt, alloc, pass, &task)?,
            Op::End(reply) => return Ok(reply),
            _ => unreachable!(),
        }
    }
    unreachable!()
}
