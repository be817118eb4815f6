//! The right to take turns.
ghost use Rattle.std.specs.Prelude.{◌≡◌, ◌<◌, ◌≤◌};

use crate::booked::Booked;
use crate::view::View;
use atomic_table::Seat;
use std::marker::Model;

/// The right to take turns, and what was seen in them.
///
/// Contracts see which lock it is of, its number, the next number that it gives, what it has seen, its row, and the
/// value that `enter` gave, between `enter` and `leave`.
#[derive(Drop)]
pub struct Ticket<B: Booked + Drop> {
    pub(crate) number: u32,
    // How many entries it has seen.
    pub(crate) seen_count: u64,
    // The next number to give, in the ticket of number 0.
    pub(crate) next: u32,
    pub(crate) seat: Seat<Option<B>, View<B, B::Entry, B::Row>>,
}

impl<B: Booked + Drop> Model for Ticket<B> {
    ghost use Rattle.turn_lock.specs.Tickets.{TicketView, ticket_view, Backed};

    ghost Value = { TicketView B B.Entry B.Row };

    ghost view = { λ t. ticket_view t.seat };

    ghost invariant = { λ t. Backed B.seat_of t.number t.seen_count t.next t.seat.me };
}

impl<B: Booked + Drop> Ticket<B> {
    /// The number of the ticket. It is in its entries, and is never used again.
    pub fn number(&self) -> u32
        ensures same { result ≡ self.now.number }
        ensures small { result < 64 }
        ensures next { self.now.number ≡ 0 → (1 ≤ self.now.next) × (self.now.next ≤ 64) }
    {
        self.number
    }
}
