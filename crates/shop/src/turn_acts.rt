//! Turns in which another crate says what is done.
ghost use Rattle.std.specs.Prelude.{◌≡◌, ◌<◌, ℕ};
ghost use Rattle.turn_lock.specs.Entries.{Lags};
ghost use Rattle.system_events.specs.Legal.{IsAfter};
ghost use Rattle.shop_base.specs.Passes.{seat_of};
ghost use Rattle.shop_desk.specs.Ledgers.{Ledger, desk_row, OneMore, OthersStay};
ghost use Rattle.shop.specs.Turned.{Turned};

use crate::pass::Pass;
use crate::shop::Shop;
use shop_desk::Desk;
use std::sync::Wait;
use system_core::Matter;

/// What is done in one turn of a seat: at most one event, which is of that seat.
pub trait TurnAct<M: Matter> {
    /// What it answers.
    type Answer: Drop;

    // What it needs of the seat and of the desk.
    ghost needs: { Self → ℕ → Ledger M M.Task M.Value M.Program M.Request M.Reply M.Fault → Type 0 };

    // What it makes of the desk, with this answer.
    ghost makes: { Self → ℕ → Ledger M M.Task M.Value M.Program M.Request M.Reply M.Fault → Self.Answer →
        Ledger M M.Task M.Value M.Program M.Request M.Reply M.Fault → Type 0 };

    /// Does it.
    fn act(self, desk: &mut Desk<M>, seat: u32) -> Self::Answer
        requires seat { seat < 64 }
        requires needs { needs self seat desk.old }
        ensures makes { makes self seat desk.old result desk.new }
        ensures gained { OneMore seat desk.old desk.new }
        ensures others { OthersStay seat desk.old desk.new };
}

impl<M: Matter> Shop<M> {
    /// One turn of a pass, in which this is done.
    pub fn turn<R: Wait, A: TurnAct<M> + Drop>(
        &self,
        rt: &R,
        pass: &mut Pass<M>,
        act: A,
    ) -> A::Answer
        requires own { pass.old.shop ≡ self.now }
        requires needs { (desk : Ledger M M.Task M.Value M.Program M.Request M.Reply M.Fault) →
            IsAfter M.facts 64 desk.state →
            Lags seat_of pass.old.number pass.old.seen desk.state.history →
            desk_row desk pass.old.number ≡ pass.old.row → A.needs act pass.old.number desk }
        ensures turned { Turned M.facts (λ before now. A.makes act pass.old.number before result now)
            pass.old pass.new }
    {
        let number = pass.ticket.number();
        let mut desk = self.lock.enter(rt, &mut pass.ticket);
        desk.tells_legal();
        let answer = act.act(&mut desk, number);
        self.leave(&mut pass.ticket, &mut pass.generation, desk);
        answer
    }

    /// How often a turn may have let others go on. To be asked before the turn that may answer that something is busy.
    pub fn rings(&self) -> u64 {
        self.bell.rings()
    }

    /// Lets those who sleep try again.
    pub fn ring(&self) {
        self.bell.ring();
    }

    /// Sleeps until others let it go on. It may wake for no reason.
    pub fn sleep<R: Wait>(&self, rt: &R, heard: u64) {
        self.bell.wait(rt, heard);
    }
}
