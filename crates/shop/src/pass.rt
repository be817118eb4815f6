//! The right to call a shop.
ghost use Rattle.std.specs.Prelude.{◌≡◌, ◌<◌};
ghost use Rattle.shop_base.specs.Passes.{seen_state, IsPass};

use shop_desk::Desk;
use std::marker::Model;
use system_core::Matter;
use turn_lock::Ticket;

/// The right of one caller to call a shop. Contracts see its number, its row, what it has seen, and the task that it
/// seeks to load.
#[derive(Drop)]
pub struct Pass<M: Matter> {
    pub(crate) ticket: Ticket<Desk<M>>,
    // That of the generation in force after what it has seen.
    pub(crate) generation: u32,
    // How many requests it has begun. Nothing is proved of it.
    pub(crate) begun: u32,
    // While it seeks a load, the task that will be entered.
    pub(crate) sought: Option<M::Task>,
}

impl<M: Matter> Model for Pass<M> {
    ghost use Rattle.shop_base.specs.Passes.{PassView};
    ghost use Rattle.shop.specs.Held.{pass_view, IsHeld};

    ghost Value = { PassView M M.Task M.Value M.Program M.Request M.Reply M.Fault };

    ghost view = { λ p. pass_view p.ticket p.sought };

    ghost invariant = { λ p. IsHeld M.facts p.ticket p.generation p.sought };
}

impl<M: Matter> Pass<M> {
    /// Its number, which is its seat and is never used again.
    pub fn number(&self) -> u32
        ensures same { result ≡ self.now.number }
        ensures small { result < 64 }
    {
        self.ticket.number()
    }

    /// The number of the generation in force after what it has seen. It takes no memory, and no turn.
    pub fn generation(&self) -> u32
        ensures { result ≡ (seen_state M.facts self.now).counts.generation }
    {
        self.generation
    }

    /// What it has seen is a legal history, and its row is the one that its seat has after it.
    pub fn tells(&self)
        ensures { IsPass M.facts self.now }
    {
        let _ = &self.ticket;
    }
}
