//! What a pass does while it is exclusive for a load.
ghost use Rattle.std.specs.Prelude.{◌≡◌, ◌≤◌, ◌+◌, ◌∷◌, ◌++◌, [], List, Some, None, Ok, Contains, IfOk, IfSome, OnOk};
ghost use Rattle.std.specs.Prelude.{OnErr};
ghost use Rattle.turn_lock.specs.Entries.{Lags};
ghost use Rattle.by_need.specs.Blame.{blame};
ghost use Rattle.by_need_loader.specs.Failures.{cause};
ghost use Rattle.by_need_loader.specs.Progress.{History, IsOn, WentOn};
ghost use Rattle.by_need_loader.specs.declared.loader.Phase.{Phase};
ghost use Rattle.system_events.specs.declared.event.Kept.{Kept};
ghost use Rattle.system_events.specs.Steps.{IsNeeded};
ghost use Rattle.load_sections.specs.Theories.{IsOfTheory};
ghost use Rattle.load_sections.specs.Sections.{table_at};
ghost use Rattle.shop_base.specs.Rows.{IsLoading, with_room};
ghost use Rattle.shop_base.specs.Passes.{seat_of, seen_state, moved, IsPass, Made};
ghost use Rattle.shop.specs.Seeking.{LoadsTask};
ghost use Rattle.pass_loads.specs.Loading.{LoadsOn};

use by_need::Theory;
use by_need_loader::{Failure, LoadStep, Loader, Program};
use shop::{Copies, Pass, Shop};
use std::alloc::{AllocError, Global};
use std::sync::Wait;
use system_core::Matter;

// Answers a look of a loader by the table, which stays meanwhile.
fn look<Y: Program, M: Copies + Matter<Task = Y::Task, Value = Y::Value>, R: Wait>(
    rt: &R,
    shop: &Shop<M>,
    pass: &mut Pass<M>,
    loader: &mut Loader<Y>,
    asked: &Y::Task,
) -> Result<(), AllocError>
    requires own { pass.old.shop ≡ shop.now }
    requires pass { IsPass M.facts pass.old }
    requires loads { IsLoading pass.old.row.seat }
    ensures same { pass.new ≡ moved pass.old pass.old.row pass.new.seen }
    ensures seen { Lags seat_of pass.old.number pass.old.seen pass.new.seen }
    ensures pass { IsPass M.facts pass.new }
    ensures table { (seen_state M.facts pass.new).table ≡ (seen_state M.facts pass.old).table }
    ensures goes { IfOk result (λ _. (theory : Y) (h : History Y.Task Y.Value) →
        loader.old.phase ≡ Phase.Looks asked.now →
        h.table ≡ table_at M.facts (seen_state M.facts pass.old) →
        IsOn (Y.rules theory) (Y.runs theory) h loader.old →
        WentOn (Y.rules theory) (Y.runs theory) h loader.old loader.new) }
{
    let found = shop.lookup(rt, pass, asked);
    pass.tells();
    let found = found?;
    loader.answer(found.as_ref())
}

// Sets room for one task aside, that is to be defined.
fn set_aside<M: Matter, R: Wait>(
    rt: &R,
    shop: &Shop<M>,
    pass: &mut Pass<M>,
) -> Result<(), AllocError>
    requires own { pass.old.shop ≡ shop.now }
    ensures ok { OnOk result (pass.new ≡ moved pass.old (with_room pass.old.row.seat
        (pass.old.row.entries + 1) (pass.old.row.values + 1)) pass.new.seen) }
    ensures err { OnErr result (pass.new ≡ moved pass.old pass.old.row pass.new.seen) }
    ensures seen { Lags seat_of pass.old.number pass.old.seen pass.new.seen }
    ensures pass { IsPass M.facts pass.new }
{
    let room = shop.room(rt, pass, 1);
    pass.tells();
    room
}

// Defines a task that the load needs, for which it sets room aside.
fn define<M: Matter, R: Wait>(
    rt: &R,
    shop: &Shop<M>,
    pass: &mut Pass<M>,
    task: M::Task,
    value: M::Value,
) -> Result<(), AllocError>
    requires own { pass.old.shop ≡ shop.now }
    requires pass { IsPass M.facts pass.old }
    requires loads { IsLoading pass.old.row.seat }
    requires room { 4 ≤ pass.old.row.entries }
    requires lacks { table_at M.facts (seen_state M.facts pass.old) task ≡ None }
    requires needed { IsNeeded M.facts (seen_state M.facts pass.old) pass.old.number task }
    requires known { M.facts.known (seen_state M.facts pass.old).counts.program task ≡ Some value }
    ensures same { pass.new ≡ moved pass.old pass.old.row pass.new.seen }
    ensures pass { IsPass M.facts pass.new }
    ensures made { OnOk result (Made pass.old.number (Kept.Define task) pass.old.seen pass.new.seen) }
    ensures table { OnOk result ((seen_state M.facts pass.new).table
        ≡ (seen_state M.facts pass.old).table ++ (task, value) ∷ []) }
    ensures section { (sought : M.Task) → LoadsTask M.facts pass.old sought → LoadsTask M.facts pass.new sought }
    ensures err { OnErr result (Lags seat_of pass.old.number pass.old.seen pass.new.seen) }
{
    set_aside(rt, shop, pass)?;
    shop.define(rt, pass, task, value);
    pass.tells();
    Ok(())
}

/// Defines, task after task, what a load of the task defines, for which the pass is exclusive. It answers why the task
/// stays unknown, if it does.
pub fn define_all<Y: Program, M: Copies + Matter<Task = Y::Task, Value = Y::Value>, R: Wait>(
    rt: &R,
    alloc: Global,
    shop: &Shop<M>,
    pass: &mut Pass<M>,
    theory: &Y,
    task: Y::Task,
) -> Result<Option<Failure<Y::Task, Y::Error, Y::Other>>, AllocError>
    requires own { pass.old.shop ≡ shop.now }
    requires loads { LoadsTask M.facts pass.old task }
    requires room { 4 ≤ pass.old.row.entries }
    requires task { Contains (M.facts.tasks (seen_state M.facts pass.old).counts.program) task }
    requires theory { IsOfTheory M.facts (seen_state M.facts pass.old).counts.program (Y.rules theory.now) }
    // Its own acts are Defines.
    ensures defines { LoadsOn M.facts pass.old pass.new }
    ensures loads { LoadsTask M.facts pass.new task }
    ensures pass { IsPass M.facts pass.new }
    ensures loaded { result ≡ Ok None → (value : Y.Value)
        × ((M.facts.known (seen_state M.facts pass.new).counts.program task ≡ Some value)
        × (table_at M.facts (seen_state M.facts pass.new) task ≡ Some value)) }
    ensures failed { IfOk result (λ failed. IfSome failed (λ failure.
        (M.facts.known (seen_state M.facts pass.new).counts.program task ≡ None)
        × (blame (Y.rules theory.now) task ≡ cause failure))) }
{
    let mut loader: Loader<Y> = Loader::begin(alloc, task);
    pass.tells();
    'steps: loop {
        match loader.step(theory)? {
            LoadStep::Look(asked) => look::<Y, M, R>(rt, shop, pass, &mut loader, &asked)?,
            LoadStep::Define(done, value) => define::<M, R>(rt, shop, pass, done, value)?,
            LoadStep::Done => return Ok(None),
            LoadStep::Failed(failure) => return Ok(Some(failure)),
        }
    }
}
