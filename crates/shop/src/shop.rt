//! The shop, and passes that come and go.
ghost use Rattle.std.specs.Prelude.{◌≡◌, ◌+◌, ◌∷◌, [], ℕ, None, IfOk, IfErr, IsErr, OnOk, OnErr, ◌↔◌};
ghost use Rattle.std.specs.Prelude.{IsSome};
ghost use Rattle.turn_lock.specs.Entries.{Lags, Begins, longer};
ghost use Rattle.turn_lock.specs.Tickets.{KeepsRows, GainsOne, after_leaving};
ghost use Rattle.system_events.specs.Legal.{opening, IsAfter};
ghost use Rattle.shop_base.specs.Rows.{at_rest};
ghost use Rattle.shop_base.specs.Passes.{seat_of, moved};
ghost use Rattle.shop_desk.specs.Ledgers.{desk_row};

use crate::bell::Bell;
use crate::pass::Pass;
use shop_desk::Desk;
use std::alloc::{AllocError, Global};
use std::marker::Model;
use system_core::Matter;
use turn_lock::{SplitFault, Ticket, TurnLock};

/// A system under a turn lock. Contracts see which shop it is.
#[derive(Drop)]
pub struct Shop<M: Matter> {
    pub(crate) lock: TurnLock<Desk<M>>,
    pub(crate) bell: Bell,
}

impl<M: Matter> Model for Shop<M> {
    ghost use Rattle.turn_lock.specs.Tickets.{LockId, lock_id_coded};

    ghost Value = { LockId };

    ghost coded = { lock_id_coded };

    ghost view = { λ s. s.lock };
}

impl<M: Matter> Shop<M> {
    /// A shop over the empty snapshot, and the pass of number 0.
    pub fn new(alloc: Global) -> Result<(Shop<M>, Pass<M>), AllocError>
        ensures { IfOk result (λ t. t.1 ≡ record {
          shop = t.0;
          number = 0;
          next = 1;
          seen = opening M.facts ∷ [];
          row = at_rest;
          sought = None;
        }) }
    {
        let desk = Desk::new(alloc)?;
        desk.tells_legal();
        let (lock, ticket) = TurnLock::new(alloc, desk)?;
        let bell = Bell::new();
        Ok((
            Shop { lock, bell },
            Pass {
                ticket,
                generation: 0,
                begun: 0,
                sought: None,
            },
        ))
    }

    /// Gives the next number to a new pass, which has seen as much. The pass of number 0 gives the numbers 1 to 63.
    pub fn split(&self, pass: &mut Pass<M>) -> Result<Pass<M>, SplitFault>
        requires own { pass.old.shop ≡ self.now }
        requires first { pass.old.number ≡ 0 }
        ensures counted { OnOk result (pass.new ≡ record pass.old { next = pass.old.next + 1 }) }
        ensures given { IfOk result (λ p. p ≡ record {
          shop = self.now;
          number = pass.old.next;
          next = 0;
          seen = pass.old.seen;
          row = at_rest;
          sought = None;
        }) }
        ensures full { IfErr result (λ e. e ≡ SplitFault.PassesFull 64) }
        // The next number is 64 exactly where the numbers up to 63 were given.
        ensures full_where { IsErr result ↔ (pass.old.next ≡ 64) }
        ensures refused { OnErr result (pass.new ≡ pass.old) }
    {
        let generation = pass.generation;
        let ticket = self.lock.split(&mut pass.ticket)?;
        Ok(Pass {
            ticket,
            generation,
            begun: 0,
            sought: None,
        })
    }

    /// Takes in what another pass has seen. The other pass's number is not used again.
    pub fn join(&self, pass: &mut Pass<M>, other: Pass<M>)
        requires own { (pass.old.shop ≡ self.now) × (other.shop ≡ self.now) }
        requires rests { other.row ≡ at_rest }
        ensures longer { pass.new ≡ moved pass.old pass.old.row (longer pass.old.seen other.seen) }
        ensures mine { Lags seat_of pass.old.number pass.old.seen pass.new.seen }
        ensures theirs { Begins other.seen pass.new.seen }
    {
        let Pass {
            ticket,
            generation,
            begun: _,
            sought: _,
        } = other;
        self.lock.join(&mut pass.ticket, ticket);
        pass.generation = pass.generation.max(generation);
    }

    // Ends a turn, and keeps the generation in force.
    pub(crate) fn leave(&self, ticket: &mut Ticket<Desk<M>>, generation: &mut u32, desk: Desk<M>)
        requires own { ticket.old.lock ≡ self.now }
        requires turn { IsSome ticket.old.turn }
        requires rows { KeepsRows desk_row ticket.old desk }
        requires entry { GainsOne (λ d. d.state.history) seat_of ticket.old desk }
        ensures left { ticket.new ≡ after_leaving (λ d. d.state.history) desk_row desk ticket.old }
        ensures generation { generation.new ≡ desk.state.counts.generation }
        ensures after { IsAfter M.facts 64 desk.state }
    {
        desk.tells_legal();
        *generation = desk.generation();
        self.lock.leave(ticket, desk);
    }
}
