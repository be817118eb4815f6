//! A load of a task, from its Seek or Take to its Release.
ghost use Rattle.std.specs.Prelude.{◌≡◌, ◌≤◌, ◌+◌, ◌-◌, ◌++◌, ℕ, List, None, Some, Ok, true, false, Contains, IfOk};
ghost use Rattle.std.specs.Prelude.{IfSome, OnErr};
ghost use Rattle.turn_lock.specs.Entries.{Lags};
ghost use Rattle.by_need_loader.specs.Failures.{cause};
ghost use Rattle.by_need_loader.specs.declared.loader.Failure.{Failure};
ghost use Rattle.system_events.specs.declared.event.Kept.{Kept};
ghost use Rattle.system_events.specs.declared.event.Want.{Want};
ghost use Rattle.request_laws.specs.Conduct.{AreDefines, Opens, Closes};
ghost use Rattle.shop_base.specs.Rows.{IsRunning, IsLoading, running_seat, loading_seat, with_room};
ghost use Rattle.shop_base.specs.Passes.{seat_of, seen_state, moved, IsPass, Gains};
ghost use Rattle.shop.specs.Seeking.{LoadsTask};
ghost use Rattle.pass_loads.specs.Loading.{MayLoad, HasFailed};

use crate::section::define_all;
use by_need::Theory;
use by_need_loader::Failure;
use request_actor::Requests;
use request_loads::Loads;
use shop::{Copies, Loading, Pass, Shop};
use std::alloc::{AllocError, Global};
use std::sync::Wait;
use system_core::Matter;

fn copy<M: Requests>(task: &M::Task) -> Result<M::Task, AllocError>
    ensures { IfOk result (λ copied. copied ≡ task.now) }
{
    M::copy_task(task)
}

// Opens a load section of a task, as soon as the exclusive side isn't busy. It answers false where the table has the
// task.
fn open_section<M: Copies, R: Wait>(
    rt: &R,
    shop: &Shop<M>,
    pass: &mut Pass<M>,
    task: &M::Task,
) -> Result<bool, AllocError>
    requires own { pass.old.shop ≡ shop.now }
    requires runs { IsRunning pass.old.row.seat }
    requires idle { pass.old.sought ≡ None }
    requires room { 4 ≤ pass.old.row.entries }
    requires task { Contains (M.facts.tasks (seen_state M.facts pass.old).counts.program) task.now }
    ensures same { pass.new ≡ moved pass.old pass.new.row pass.new.seen }
    ensures open { result ≡ Ok true → LoadsTask M.facts pass.new task.now }
    ensures row { result ≡ Ok true → (begun : ℕ) → pass.old.row.seat ≡ running_seat begun →
        (opened : ℕ) × (pass.new.row
        ≡ with_room (loading_seat begun opened) (pass.old.row.entries + 2) pass.old.row.values) }
    ensures acts { result ≡ Ok true → (acts : List (Kept M M.Task M.Value M.Program M.Request M.Reply M.Fault))
        × (Opens (Want.Load task.now) acts × Gains pass.old.number acts pass.old.seen pass.new.seen) }
    ensures present { result ≡ Ok false → (pass.new.row ≡ pass.old.row)
        × Lags seat_of pass.old.number pass.old.seen pass.new.seen }
    ensures err { OnErr result ((pass.new.row ≡ pass.old.row)
        × Lags seat_of pass.old.number pass.old.seen pass.new.seen) }
    ensures pass { IsPass M.facts pass.new }
{
    let opened = open(rt, shop, pass, task);
    pass.tells();
    opened
}

// The same, of which it isn't told that the pass keeps what every pass keeps.
fn open<M: Copies, R: Wait>(
    rt: &R,
    shop: &Shop<M>,
    pass: &mut Pass<M>,
    task: &M::Task,
) -> Result<bool, AllocError>
    requires own { pass.old.shop ≡ shop.now }
    requires runs { IsRunning pass.old.row.seat }
    requires idle { pass.old.sought ≡ None }
    requires room { 4 ≤ pass.old.row.entries }
    requires task { Contains (M.facts.tasks (seen_state M.facts pass.old).counts.program) task.now }
    ensures same { pass.new ≡ moved pass.old pass.new.row pass.new.seen }
    ensures open { result ≡ Ok true → LoadsTask M.facts pass.new task.now }
    ensures row { result ≡ Ok true → (begun : ℕ) → pass.old.row.seat ≡ running_seat begun →
        (opened : ℕ) × (pass.new.row
        ≡ with_room (loading_seat begun opened) (pass.old.row.entries + 2) pass.old.row.values) }
    ensures acts { result ≡ Ok true → (acts : List (Kept M M.Task M.Value M.Program M.Request M.Reply M.Fault))
        × (Opens (Want.Load task.now) acts × Gains pass.old.number acts pass.old.seen pass.new.seen) }
    ensures present { result ≡ Ok false → (pass.new.row ≡ pass.old.row)
        × Lags seat_of pass.old.number pass.old.seen pass.new.seen }
    ensures err { OnErr result ((pass.new.row ≡ pass.old.row)
        × Lags seat_of pass.old.number pass.old.seen pass.new.seen) }
{
    let loading = shop.start_loading(rt, pass, task)?;
    match loading {
        Loading::Present => Ok(false),
        Loading::Taken => Ok(true),
        Loading::Seeking => {
            shop.await_loading(rt, pass, task);
            Ok(true)
        }
    }
}

// Leaves a section.
fn close_section<M: Matter, R: Wait>(rt: &R, shop: &Shop<M>, pass: &mut Pass<M>)
    requires own { pass.old.shop ≡ shop.now }
    requires loads { IsLoading pass.old.row.seat }
    requires room { 4 ≤ pass.old.row.entries }
    ensures same { pass.new ≡ moved pass.old pass.new.row pass.new.seen }
    ensures row { (begun opened : ℕ) → pass.old.row.seat ≡ loading_seat begun opened →
        pass.new.row ≡ with_room (running_seat begun) (pass.old.row.entries - 2) pass.old.row.values }
    ensures acts { (acts : List (Kept M M.Task M.Value M.Program M.Request M.Reply M.Fault))
        × (Closes acts × Gains pass.old.number acts pass.old.seen pass.new.seen) }
    ensures pass { IsPass M.facts pass.new }
{
    shop.done_loading(rt, pass);
    pass.tells();
}

// Why a task stays unknown, where its load failed.
fn unknown<M: Loads>(
    alloc: Global,
    failed: Option<FailureOf<M>>,
) -> Result<Option<M::Error>, AllocError>
    ensures { IfOk result (λ error. IfSome error (λ e.
        (failure : Failure M.Task M.Theory.Error M.Theory.Other) × ((failed ≡ Some failure)
        × (e ≡ M.reason (cause failure))))) }
{
    match failed {
        None => Ok(None),
        Some(failure) => Ok(Some(M::unknown(alloc, failure)?)),
    }
}

/// How a load of a matter's task fails.
pub type FailureOf<M> = Failure<
    <M as Matter>::Task,
    <<M as Loads>::Theory as Theory>::Error,
    <<M as Loads>::Theory as Theory>::Other,
>;

// Defines what a load of the task defines, for which the pass is exclusive, and leaves the section.
fn run_section<M: Loads + Copies, R: Wait>(
    rt: &R,
    alloc: Global,
    shop: &Shop<M>,
    pass: &mut Pass<M>,
    program: &M::Program,
    task: M::Task,
) -> Result<Option<M::Error>, AllocError>
    requires own { pass.old.shop ≡ shop.now }
    requires loads { LoadsTask M.facts pass.old task }
    requires room { 4 ≤ pass.old.row.entries }
    requires program { (seen_state M.facts pass.old).counts.program ≡ program.now }
    requires task { Contains (M.facts.tasks (seen_state M.facts pass.old).counts.program) task }
    ensures same { pass.new ≡ moved pass.old pass.new.row pass.new.seen }
    ensures row { (begun opened : ℕ) → pass.old.row.seat ≡ loading_seat begun opened →
        pass.new.row ≡ with_room (running_seat begun) (pass.old.row.entries - 2) pass.old.row.values }
    ensures acts { (defined closing : List (Kept M M.Task M.Value M.Program M.Request M.Reply M.Fault))
        × (AreDefines defined × (Closes closing
        × Gains pass.old.number (defined ++ closing) pass.old.seen pass.new.seen)) }
    ensures failed { IfOk result (λ failed. IfSome failed
        (λ error. HasFailed M.facts M.talks (seen_state M.facts pass.new) task error)) }
{
    let ended = define_all::<M::Theory, M, R>(rt, alloc, shop, pass, M::theory(program), task);
    close_section(rt, shop, pass);
    unknown::<M>(alloc, ended?)
}

/// Loads a task in a section of its own, or finds it in the table, on the program on which the request began that the
/// pass runs. It answers why the task stays unknown, if it does.
pub fn load<M: Loads + Copies, R: Wait>(
    rt: &R,
    alloc: Global,
    shop: &Shop<M>,
    pass: &mut Pass<M>,
    program: &M::Program,
    task: &M::Task,
) -> Result<Option<M::Error>, AllocError>
    requires own { pass.old.shop ≡ shop.now }
    requires runs { IsRunning pass.old.row.seat }
    requires idle { pass.old.sought ≡ None }
    requires room { 4 ≤ pass.old.row.entries }
    requires program { (seen_state M.facts pass.old).counts.program ≡ program.now }
    requires task { Contains (M.facts.tasks (seen_state M.facts pass.old).counts.program) task.now }
    ensures same { pass.new ≡ moved pass.old pass.old.row pass.new.seen }
    ensures section { (acts : List (Kept M M.Task M.Value M.Program M.Request M.Reply M.Fault))
        × (MayLoad task.now acts × Gains pass.old.number acts pass.old.seen pass.new.seen) }
    ensures failed { IfOk result (λ failed. IfSome failed
        (λ error. HasFailed M.facts M.talks (seen_state M.facts pass.new) task.now error)) }
{
    pass.tells();
    let sought = copy::<M>(task)?;
    let opened = open_section(rt, shop, pass, task)?;
    if opened {
        run_section(rt, alloc, shop, pass, program, sought)
    } else {
        Ok(None)
    }
}
