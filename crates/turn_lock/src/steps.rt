//! The rule of the table, and the kinds of step. The head of the crate has them in a table.

use crate::booked::Booked;
use crate::view::View;
use atomic_table::{Join, Play, Split, TableRule};
use std::marker::PhantomData;
use std::snapshot::Snapshot;

/// The rule. The table is told once, when it is made, which value it begins with.
pub struct Turns;

impl<B: Booked> TableRule<Option<B>, View<B, B::Entry, B::Row>, Snapshot<B>> for Turns {
    ghost use Rattle.turn_lock.specs.Rule.{Turning};
    ghost use Rattle.turn_lock.specs.Steps.{first_view};

    ghost holds = { λ _. Turning B.history B.seat_of B.rows B.rest };

    ghost first = { λ about. first_view B.history B.rows about.value };
}

/// Draws a ticket.
pub struct Draw;

impl<B: Booked> Play<Option<B>, View<B, B::Entry, B::Row>> for Draw {
    ghost use Rattle.turn_lock.specs.Steps.{DrawsTicket};

    ghost then = { DrawsTicket };
}

/// Looks which ticket is served, and takes the slot where it is this one.
pub struct Look;

impl<B: Booked> Play<Option<B>, View<B, B::Entry, B::Row>> for Look {
    ghost use Rattle.turn_lock.specs.Steps.{LooksForTurn};

    ghost then = { LooksForTurn B.history B.seat_of B.rows };
}

/// Counts the entry of the turn.
pub struct Record;

impl<B: Booked> Play<Option<B>, View<B, B::Entry, B::Row>> for Record {
    ghost use Rattle.turn_lock.specs.Steps.{RecordsEntry};

    ghost then = { RecordsEntry B.history };
}

/// Ends the turn and gives the slot back.
pub struct Done;

impl<B: Booked> Play<Option<B>, View<B, B::Entry, B::Row>> for Done {
    ghost use Rattle.turn_lock.specs.Steps.{EndsTurn};

    ghost then = { EndsTurn B.rows };
}

/// After a TakeIn, compares what was heard with what was seen.
pub struct Compare;

impl<B: Booked> Play<Option<B>, View<B, B::Entry, B::Row>> for Compare {
    ghost use Rattle.turn_lock.specs.Steps.{ComparesHeard};

    ghost then = { ComparesHeard B.seat_of };
}

/// Gives the next number to a new seat.
pub struct Give<B> {
    of: PhantomData<B>,
}

impl<B: Booked> Split<View<B, B::Entry, B::Row>> for Give<B> {
    ghost use Rattle.turn_lock.specs.Steps.{after_giving, newcomer};

    ghost left = { after_giving };

    ghost right = { newcomer B.rest };
}

/// Takes in what another seat has seen, which is spent.
pub struct TakeIn<B> {
    of: PhantomData<B>,
}

impl<B: Booked> Join<View<B, B::Entry, B::Row>> for TakeIn<B> {
    ghost use Rattle.turn_lock.specs.Steps.{after_taking_in, spent_view};

    ghost both = { after_taking_in };

    ghost spent = { spent_view B.rest };
}
