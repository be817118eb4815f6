//! The first turn of a check.
ghost use Rattle.std.specs.Prelude.{◌≡◌, ◌<◌, ◌+◌, ◌++◌, ◌∷◌, [], true, false, length, slice_index, Ok, OnErr};
ghost use Rattle.system_events.specs.declared.event.Kept.{Kept};
ghost use Rattle.system_events.specs.declared.event.Want.{Want};
ghost use Rattle.shop_base.specs.Rows.{sharing_seat, seeking_unload_seat, unloading_seat, with_room};
ghost use Rattle.shop_base.specs.Passes.{entry};
ghost use Rattle.shop_desk.specs.Ledgers.{desk_row, OthersStay, OneMore};

use outside::Stamps;
use reload_matter::Reloads;
use shop_desk::Desk;
use std::alloc::AllocError;

/// What the first turn of a check answers.
#[derive(Clone, Copy, Debug, PartialEq, Eq)]
pub enum Opening {
    /// The stamps are those in force.
    Same,
    /// They differ, and the seat is exclusive.
    Taken,
    /// They differ, and the seat seeks to be exclusive.
    Seeking,
}

/// Where the stamps aren't those in force, sets room aside for an unload, and takes it or seeks it.
pub fn open_unload<M: Reloads>(
    desk: &mut Desk<M>,
    seat: u32,
    stamps: &Stamps,
) -> Result<Opening, AllocError>
    requires seat { seat < 64 }
    requires shares { (desk_row desk.old seat).seat ≡ sharing_seat }
    ensures same { result ≡ Ok Opening.Same →
        (M.sources.has_stamps desk.old.state.counts.program stamps.now ≡ true) × (desk.new ≡ desk.old) }
    ensures taken { result ≡ Ok Opening.Taken →
        (M.sources.has_stamps desk.old.state.counts.program stamps.now ≡ false)
        × (desk.new.state.history ≡ desk.old.state.history ++ entry seat (Kept.Take Want.Unload) ∷ []) }
    ensures taken_row { result ≡ Ok Opening.Taken → desk_row desk.new seat
        ≡ with_room (unloading_seat (length desk.old.state.history))
        (slice_index desk.old.entries seat + 2) (slice_index desk.old.values seat) }
    ensures seeking { result ≡ Ok Opening.Seeking →
        (M.sources.has_stamps desk.old.state.counts.program stamps.now ≡ false)
        × (desk.new.state.history ≡ desk.old.state.history ++ entry seat (Kept.Seek Want.Unload) ∷ []) }
    ensures seeking_row { result ≡ Ok Opening.Seeking → desk_row desk.new seat
        ≡ with_room (seeking_unload_seat (length desk.old.state.history))
        (slice_index desk.old.entries seat + 3) (slice_index desk.old.values seat) }
    ensures refused { OnErr result
        ((M.sources.has_stamps desk.old.state.counts.program stamps.now ≡ false) × (desk.new ≡ desk.old)) }
    ensures gained { OneMore seat desk.old desk.new }
    ensures others { OthersStay seat desk.old desk.new }
{
    if M::has_stamps(desk.program(), stamps) {
        return Ok(Opening::Same);
    }
    let _entries = desk.entries_of(seat);
    let _values = desk.values_of(seat);
    desk.set_aside(seat, 4, 0)?;
    if desk.unload(seat) {
        Ok(Opening::Taken)
    } else {
        Ok(Opening::Seeking)
    }
}
