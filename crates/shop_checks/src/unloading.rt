//! The turns of a check up to its unload.
ghost use Rattle.std.specs.Prelude.{◌≡◌, ◌≤◌, ◌-◌, ◌∷◌, [], ℕ, Bool, true, false, Ok, OnErr};
ghost use Rattle.turn_lock.specs.Entries.{Lags};
ghost use Rattle.system_events.specs.declared.event.Kept.{Kept};
ghost use Rattle.system_events.specs.declared.event.Want.{Want};
ghost use Rattle.reload_checks.specs.Checks.{in_force, opening_acts};
ghost use Rattle.shop_base.specs.Rows.{sharing_seat, seeking_unload_seat, unloading_seat, with_room};
ghost use Rattle.shop_base.specs.Passes.{seat_of, moved, Made};
ghost use Rattle.shop_checks.specs.Opened.{Unloads, Seeks, HasGained};

use crate::acts::{OpenUnload, TakeSought};
use outside::Stamps;
use reload_matter::Reloads;
use shop::{Pass, Shop};
use shop_reloads::Opening;
use std::alloc::AllocError;
use std::sync::Wait;

// Compares stamps in one turn, and takes or seeks an unload where they differ.
fn open_check<M: Reloads, R: Wait>(
    shop: &Shop<M>,
    rt: &R,
    pass: &mut Pass<M>,
    stamps: &Stamps,
) -> Result<Opening, AllocError>
    requires own { pass.old.shop ≡ shop.now }
    requires shares { pass.old.row.seat ≡ sharing_seat }
    ensures same { pass.new ≡ moved pass.old pass.new.row pass.new.seen }
    ensures agrees { result ≡ Ok Opening.Same → (pass.new.row ≡ pass.old.row)
        × (Lags seat_of pass.old.number pass.old.seen pass.new.seen
        × (in_force M.facts M.sources pass.new.seen stamps.now ≡ true)) }
    ensures taken { result ≡ Ok Opening.Taken → Unloads pass.old.row pass.new.row
        × HasGained M.facts M.sources pass.old.number stamps.now (opening_acts false) pass.old.seen pass.new.seen }
    ensures seeking { result ≡ Ok Opening.Seeking → Seeks pass.old.row pass.new.row
        × HasGained M.facts M.sources pass.old.number stamps.now (Kept.Seek Want.Unload ∷ [])
        pass.old.seen pass.new.seen }
    ensures refused { OnErr result ((pass.new.row ≡ pass.old.row)
        × (Lags seat_of pass.old.number pass.old.seen pass.new.seen
        × (in_force M.facts M.sources pass.new.seen stamps.now ≡ false))) }
{
    shop.turn(rt, pass, OpenUnload { stamps })
}

// Tries to take the unload that the pass seeks, in one turn.
fn try_unload<M: Reloads, R: Wait>(shop: &Shop<M>, rt: &R, pass: &mut Pass<M>) -> bool
    requires own { pass.old.shop ≡ shop.now }
    requires seeks { (opened : ℕ) × (pass.old.row.seat ≡ seeking_unload_seat opened) }
    requires room { 1 ≤ pass.old.row.entries }
    ensures same { pass.new ≡ moved pass.old pass.new.row pass.new.seen }
    ensures taken { result ≡ true →
        Made pass.old.number (Kept.Take Want.Unload) pass.old.seen pass.new.seen }
    ensures row { result ≡ true → (opened : ℕ) → pass.old.row.seat ≡ seeking_unload_seat opened →
        pass.new.row ≡ with_room (unloading_seat opened) (pass.old.row.entries - 1) pass.old.row.values }
    ensures busy { result ≡ false → (pass.new.row ≡ pass.old.row)
        × Lags seat_of pass.old.number pass.old.seen pass.new.seen }
{
    shop.turn(rt, pass, TakeSought)
}

// Takes the unload that the pass seeks, as soon as nobody else is exclusive, shares or runs.
#[tactic(auto, using(crate::proofs::Turning::lags_later, crate::proofs::Turning::lags_self))]
fn await_unload<M: Reloads, R: Wait>(shop: &Shop<M>, rt: &R, pass: &mut Pass<M>)
    requires own { pass.old.shop ≡ shop.now }
    requires seeks { (opened : ℕ) × (pass.old.row.seat ≡ seeking_unload_seat opened) }
    requires room { 1 ≤ pass.old.row.entries }
    ensures same { pass.new ≡ moved pass.old pass.new.row pass.new.seen }
    ensures made { Made pass.old.number (Kept.Take Want.Unload) pass.old.seen pass.new.seen }
    ensures row { (opened : ℕ) → pass.old.row.seat ≡ seeking_unload_seat opened →
        pass.new.row ≡ with_room (unloading_seat opened) (pass.old.row.entries - 1) pass.old.row.values }
{
    'tries: for _ in rt.forever() {
        let heard = shop.rings();
        if try_unload(shop, rt, pass) {
            return;
        }
        shop.sleep(rt, heard);
    }
    unreachable!()
}

/// Compares stamps. Where they differ from those in force it takes an unload, sleeping until it can be had, and answers
/// true.
pub fn take_unload<M: Reloads, R: Wait>(
    shop: &Shop<M>,
    rt: &R,
    pass: &mut Pass<M>,
    stamps: &Stamps,
) -> Result<bool, AllocError>
    requires own { pass.old.shop ≡ shop.now }
    requires shares { pass.old.row.seat ≡ sharing_seat }
    ensures same { pass.new ≡ moved pass.old pass.new.row pass.new.seen }
    ensures agrees { result ≡ Ok false → (pass.new.row ≡ pass.old.row)
        × (Lags seat_of pass.old.number pass.old.seen pass.new.seen
        × (in_force M.facts M.sources pass.new.seen stamps.now ≡ true)) }
    ensures taken { result ≡ Ok true → Unloads pass.old.row pass.new.row × ((sought : Bool)
        × HasGained M.facts M.sources pass.old.number stamps.now (opening_acts sought) pass.old.seen pass.new.seen) }
    ensures refused { OnErr result ((pass.new.row ≡ pass.old.row)
        × (Lags seat_of pass.old.number pass.old.seen pass.new.seen
        × (in_force M.facts M.sources pass.new.seen stamps.now ≡ false))) }
{
    match open_check(shop, rt, pass, stamps) {
        Ok(Opening::Same) => Ok(false),
        Ok(Opening::Taken) => Ok(true),
        Ok(Opening::Seeking) => {
            shop.ring();
            await_unload(shop, rt, pass);
            Ok(true)
        }
        Err(error) => Err(error),
    }
}
