//! What a check does in its turns.
ghost use Rattle.std.specs.Prelude.{◌≡◌, ◌≤◌, ℕ};
ghost use Rattle.shop_base.specs.Rows.{sharing_seat, seeking_unload_seat, unloading_seat};
ghost use Rattle.shop_desk.specs.Ledgers.{desk_row};
ghost use Rattle.shop_checks.specs.Turns.{Opens, Takes, Compares, Tries};

use outside::Stamps;
use reload_checks::{Checked, ReloadFault};
use reload_matter::Reloads;
use shop::TurnAct;
use shop_desk::Desk;
use shop_reloads::{Opening, open_unload, reload};
use std::alloc::AllocError;
use system_core::Matter;

/// Compares stamps, and takes or seeks an unload where they differ from those in force.
#[derive(Drop)]
pub struct OpenUnload<'s> {
    pub stamps: &'s Stamps,
}

impl<'s, M: Reloads> TurnAct<M> for OpenUnload<'s> {
    type Answer = Result<Opening, AllocError>;

    ghost needs = { λ o k desk. (desk_row desk k).seat ≡ sharing_seat };

    ghost makes = { λ o k before answer now. Opens M.sources o.stamps.now k before answer now };

    fn act(self, desk: &mut Desk<M>, seat: u32) -> Result<Opening, AllocError> {
        open_unload(desk, seat, self.stamps)
    }
}

/// Takes the unload that the seat seeks, if the exclusive side isn't busy.
#[derive(Drop)]
pub struct TakeSought;

impl<M: Matter> TurnAct<M> for TakeSought {
    type Answer = bool;

    ghost needs = { λ t k desk. ((opened : ℕ) × ((desk_row desk k).seat ≡ seeking_unload_seat opened))
        × (1 ≤ (desk_row desk k).entries) };

    ghost makes = { λ t k before answer now. Takes k before answer now };

    fn act(self, desk: &mut Desk<M>, seat: u32) -> bool {
        desk.take_sought_unload(seat)
    }
}

/// Compares stamps with those in force.
#[derive(Drop)]
pub struct CompareStamps<'s> {
    pub stamps: &'s Stamps,
}

impl<'s, M: Reloads> TurnAct<M> for CompareStamps<'s> {
    type Answer = bool;

    ghost needs = { λ c k desk. Unit {0} };

    ghost makes = { λ c k before answer now. Compares M.sources c.stamps.now before answer now };

    fn act(self, desk: &mut Desk<M>, seat: u32) -> bool {
        M::has_stamps(desk.program(), self.stamps)
    }
}

/// Puts a program into force, unless it has the stamps of the one in force or a limit is met.
#[derive(Drop)]
pub struct TryProgram<P: Drop> {
    pub program: P,
}

impl<M: Reloads> TurnAct<M> for TryProgram<M::Program> {
    type Answer = Result<Checked, ReloadFault<M::Fault>>;

    ghost needs = { λ t k desk. ((opened : ℕ) × ((desk_row desk k).seat ≡ unloading_seat opened))
        × M.facts.IsProgram t.program };

    ghost makes = { λ t k before answer now. Tries M.facts t.program k before answer now };

    fn act(self, desk: &mut Desk<M>, seat: u32) -> Result<Checked, ReloadFault<M::Fault>> {
        reload(desk, seat, self.program)
    }
}
