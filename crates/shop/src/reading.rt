//! What a pass reads of the system, without an event.
ghost use Rattle.std.specs.Prelude.{◌≡◌, IfOk, option_map};
ghost use Rattle.turn_lock.specs.Entries.{Lags};
ghost use Rattle.system_core.specs.Tables.{lookup};
ghost use Rattle.shop_base.specs.Passes.{seat_of, seen_state, moved};

use crate::copies::Copies;
use crate::pass::Pass;
use crate::shop::Shop;
use std::alloc::AllocError;
use std::sync::Wait;
use system_core::Matter;

impl<M: Matter> Shop<M> {
    /// The program in force. It is shared, and takes no memory.
    pub fn program<R: Wait>(&self, rt: &R, pass: &mut Pass<M>) -> M::Program
        requires own { pass.old.shop ≡ self.now }
        ensures same { pass.new ≡ moved pass.old pass.old.row pass.new.seen }
        ensures seen { Lags seat_of pass.old.number pass.old.seen pass.new.seen }
        ensures program { result ≡ (seen_state M.facts pass.new).counts.program }
    {
        let desk = self.lock.enter(rt, &mut pass.ticket);
        let program = M::share(desk.program());
        self.leave(&mut pass.ticket, &mut pass.generation, desk);
        program
    }
}

impl<M: Copies> Shop<M> {
    /// A copy of the value that the table has of a task.
    pub fn lookup<R: Wait>(
        &self,
        rt: &R,
        pass: &mut Pass<M>,
        task: &M::Task,
    ) -> Result<Option<M::Value>, AllocError>
        requires own { pass.old.shop ≡ self.now }
        ensures same { pass.new ≡ moved pass.old pass.old.row pass.new.seen }
        ensures seen { Lags seat_of pass.old.number pass.old.seen pass.new.seen }
        // None exactly where the task isn't in the table at that turn.
        ensures found { IfOk result (λ found. found ≡ lookup M.facts task.now (seen_state M.facts pass.new).table) }
    {
        let desk = self.lock.enter(rt, &mut pass.ticket);
        let found = copy_found::<M>(desk.value(task));
        self.leave(&mut pass.ticket, &mut pass.generation, desk);
        found
    }
}

// A copy of a value, if there is one.
fn copy_found<M: Copies>(value: Option<&M::Value>) -> Result<Option<M::Value>, AllocError>
    ensures { IfOk result (λ copied. copied ≡ option_map (λ v. v.now) value.entry) }
{
    match value {
        Some(value) => Ok(Some(M::copy_value(value)?)),
        None => Ok(None),
    }
}
