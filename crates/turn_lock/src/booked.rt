//! What the lock asks of the value that it holds.
ghost use Rattle.std.specs.Prelude.{◌≡◌, ℕ, List, length};

/// A value that keeps a history, and a row for each of the numbers 0 to 63 that a ticket may have.
///
/// A row is what contracts know of one number: its state, and also the room that is set aside for it, where there is
/// such a thing.
pub trait Booked {
    /// One entry of the history.
    type Entry;

    /// What the value keeps for one number.
    type Row;

    // The entries, the first one first.
    ghost history: { Self → List Self.Entry };

    // The number of the ticket that added an entry.
    ghost seat_of: { Self.Entry → ℕ };

    // The row of each number below 64.
    ghost rows: { Self → ℕ → Self.Row };

    // The row of a number at rest, for which no room is set aside.
    ghost rest: { Self.Row };

    /// How many entries the history has.
    fn length(&self) -> u64
        ensures { result ≡ length (history self.now) };
}
