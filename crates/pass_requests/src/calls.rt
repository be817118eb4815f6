//! What a request needs of the pass that runs it.
ghost use Rattle.std.specs.Prelude.{◌≡◌, ◌≤◌, List, Option, Contains, IfOk, IfSome};
ghost use Rattle.outside.specs.Tree.{Given};
ghost use Rattle.turn_lock.specs.Entries.{Lags};
ghost use Rattle.system_core.specs.Tables.{lookup};
ghost use Rattle.system_events.specs.declared.event.Kept.{Kept};
ghost use Rattle.shop_base.specs.Rows.{IsRunning};
ghost use Rattle.shop_base.specs.Passes.{PassView, IsPass, Gains, seat_of, seen_state, moved};
ghost use Rattle.pass_requests.specs.Serving.{HasFailed, MayLoad};

use request_loads::Loads;
use std::alloc::{AllocError, Global};
use std::sync::Wait;

/// A pass, with the calls that a request which it runs makes.
pub trait PassCalls<M: Loads> {
    // What contracts see of the pass.
    ghost pass: { Self → PassView M M.Task M.Value M.Program M.Request M.Reply M.Fault };

    // What its tree of files gave, where it tells.
    ghost given: { Self → Option (List Given) };

    /// What the pass has seen is a legal history.
    fn tells(&self)
        ensures { IsPass M.facts (pass self.now) };

    /// A copy of the value that the table has of a task at one turn.
    fn lookup<R: Wait>(&mut self, rt: &R, task: &M::Task) -> Result<Option<M::Value>, AllocError>
        ensures same { pass self.new ≡ moved (pass self.old) (pass self.old).row (pass self.new).seen }
        ensures seen { Lags seat_of (pass self.old).number (pass self.old).seen (pass self.new).seen }
        ensures found { IfOk result
            (λ found. found ≡ lookup M.facts task.now (seen_state M.facts (pass self.new)).table) }
        ensures given { given self.new ≡ given self.old };

    /// Loads a task in a section of its own, or finds it in the table. It answers why the task stays unknown, if it
    /// does.
    fn load<R: Wait>(
        &mut self,
        rt: &R,
        alloc: Global,
        task: &M::Task,
    ) -> Result<Option<M::Error>, AllocError>
        requires runs { IsRunning (pass self.old).row.seat }
        requires room { 4 ≤ (pass self.old).row.entries }
        requires task { Contains (M.facts.tasks (seen_state M.facts (pass self.old)).counts.program) task.now }
        ensures same { pass self.new ≡ moved (pass self.old) (pass self.old).row (pass self.new).seen }
        ensures section { (acts : List (Kept M M.Task M.Value M.Program M.Request M.Reply M.Fault))
            × (MayLoad task.now acts × Gains (pass self.old).number acts (pass self.old).seen (pass self.new).seen) }
        ensures failed { IfOk result (λ failed. IfSome failed
            (λ error. HasFailed M.facts M.talks (seen_state M.facts (pass self.new)) task.now error)) }
        ensures given { given self.new ≡ given self.old };
}
