//! The turn of a check that tries a program.
ghost use Rattle.std.specs.Prelude.{◌≡◌, ◌<◌, ◌+◌, ◌++◌, ◌∷◌, [], ℕ, slice_index, true, Ok, Some, IfErr, OnOk};
ghost use Rattle.system_seats.specs.declared.guard.Guard.{Guard};
ghost use Rattle.system_events.specs.declared.event.Kept.{Kept};
ghost use Rattle.system_events.specs.Guards.{reload_limits};
ghost use Rattle.shop_base.specs.Rows.{unloading_seat, with_room};
ghost use Rattle.shop_base.specs.Passes.{entry};
ghost use Rattle.shop_desk.specs.Ledgers.{desk_row, OthersStay, OneMore, setting_aside};
ghost use Rattle.reload_checks.specs.Checks.{EntersNone};

use reload_checks::{Checked, ReloadFault};
use reload_matter::Reloads;
use shop_desk::{Desk, Reloading};
use system_core::Guard;

/// Puts a program into force, for which it sets room aside. Where the program's stamps are those in force, or a limit
/// is met, it leaves all as it was.
pub fn reload<M: Reloads>(
    desk: &mut Desk<M>,
    seat: u32,
    program: M::Program,
) -> Result<Checked, ReloadFault<M::Fault>>
    requires seat { seat < 64 }
    requires unloads { (opened : ℕ) × ((desk_row desk.old seat).seat ≡ unloading_seat opened) }
    requires program { M.facts.IsProgram program }
    ensures reloaded { (generation : ℕ) → result ≡ Ok (Checked.Reloaded generation) →
        (desk.new.state.history ≡ desk.old.state.history ++ entry seat (Kept.Reload program) ∷ [])
        × (generation ≡ desk.new.state.counts.generation) }
    ensures same { result ≡ Ok Checked.Same →
        (M.facts.same_stamps program desk.old.state.counts.program ≡ true) × (desk.new ≡ desk.old) }
    ensures refused { IfErr result (λ fault.
        EntersNone (reload_limits M.facts desk.old.state.counts program) fault × (desk.new ≡ desk.old)) }
    ensures row { desk_row desk.new seat ≡ desk_row desk.old seat }
    ensures gained { OneMore seat desk.old desk.new }
    ensures others { OthersStay seat desk.old desk.new }
{
    let entries = desk.entries_of(seat);
    let values = desk.values_of(seat);
    match desk.set_aside(seat, 1, 0) {
        Ok(()) => reload_reserved(desk, seat, program, entries, values),
        Err(_) => Err(ReloadFault::Memory),
    }
}

// Puts a program into force, for which room is set aside already, or leaves so much aside.
fn reload_reserved<M: Reloads>(
    desk: &mut Desk<M>,
    seat: u32,
    program: M::Program,
    entries: u32,
    values: u32,
) -> Result<Checked, ReloadFault<M::Fault>>
    requires seat { seat < 64 }
    requires unloads { (opened : ℕ) × ((desk_row desk.old seat).seat ≡ unloading_seat opened) }
    requires room { slice_index desk.old.entries seat ≡ entries + 1 }
    requires values { slice_index desk.old.values seat ≡ values }
    requires program { M.facts.IsProgram program }
    ensures reloaded { (generation : ℕ) → result ≡ Ok (Checked.Reloaded generation) →
        (desk.new.state.history ≡ desk.old.state.history ++ entry seat (Kept.Reload program) ∷ [])
        × (generation ≡ desk.new.state.counts.generation) }
    ensures same { result ≡ Ok Checked.Same →
        (M.facts.same_stamps program desk.old.state.counts.program ≡ true)
        × (desk.new ≡ setting_aside desk.old seat entries values) }
    ensures refused { IfErr result (λ fault.
        EntersNone (reload_limits M.facts desk.old.state.counts program) fault
        × (desk.new ≡ setting_aside desk.old seat entries values)) }
    ensures row { desk_row desk.new seat ≡ with_room (desk_row desk.old seat).seat entries values }
    ensures gained { OneMore seat desk.old desk.new }
    ensures others { OthersStay seat desk.old desk.new }
{
    match desk.reload(seat, program) {
        Reloading::Reloaded => Ok(Checked::Reloaded(desk.generation())),
        Reloading::Refused(guard) => {
            desk.give_up(seat, entries, values);
            refused_by(guard)
        }
    }
}

// What a guard of a Reload answers.
fn refused_by<F: Drop>(guard: Guard) -> Result<Checked, ReloadFault<F>>
    ensures same { OnOk result ((result ≡ Ok Checked.Same) × (guard ≡ Guard.SameStamps)) }
    ensures refused { IfErr result (EntersNone (Some guard)) }
{
    match guard {
        Guard::SameStamps => Ok(Checked::Same),
        Guard::GenerationsFull(n) => Err(ReloadFault::GenerationsFull(n)),
        Guard::KeptFull(n) => Err(ReloadFault::KeptFull(n)),
        _ => Err(ReloadFault::Memory),
    }
}
