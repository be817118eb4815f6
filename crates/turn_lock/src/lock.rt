//! The lock and its calls.
ghost use Rattle.std.specs.Prelude.{◌≡◌, ◌+◌, ◌↔◌, true, None, Some, IsSome, IfOk, IfErr, OnOk, OnErr, IsErr};
ghost use Rattle.turn_lock.specs.Entries.{NoneOf, NoneFrom, Lags, Begins, longer};
ghost use Rattle.turn_lock.specs.Tickets.{AtRest, KeepsRows, GainsOne, first_ticket, split_ticket, after_leaving};
ghost use Rattle.turn_lock.specs.Steps.{KnowsTheSame, HasTurn, IsIdle, IsWaiting, IsTaken, Added, holding};

use crate::booked::Booked;
use crate::steps::{Compare, Done, Draw, Give, Look, Record, TakeIn, Turns};
use crate::ticket::Ticket;
use crate::view::View;
use atomic_table::{Refused, Seat, Shared, Table};
use std::alloc::{AllocError, Global};
use std::marker::Model;
use std::snapshot::Snapshot;
use std::sync::Wait;

type Place<B> = Seat<Option<B>, View<B, <B as Booked>::Entry, <B as Booked>::Row>>;

type Board<B> = Shared<
    Option<B>,
    View<B, <B as Booked>::Entry, <B as Booked>::Row>,
    Snapshot<B>,
    Turns,
>;

const NEXT_TICKET: usize = 0;

const SERVED: usize = 1;

const LENGTH: usize = 2;

// The one slot.
const VALUE: usize = 0;

// The numbers are those below this one.
const SEATS: u32 = 64;

/// A value that is handed out in turns. Contracts see which lock it is.
#[derive(Drop)]
pub struct TurnLock<B: Booked + Drop> {
    table: Table<Option<B>, View<B, B::Entry, B::Row>, Snapshot<B>, Turns, Global>,
}

impl<B: Booked + Drop> Model for TurnLock<B> {
    ghost use Rattle.std.specs.Prelude.{◌≡◌};
    ghost use Rattle.atomic_table.specs.Seated.{table_id_coded};
    ghost use Rattle.turn_lock.specs.Tickets.{LockId};

    ghost Value = { LockId };

    ghost coded = { table_id_coded };

    ghost view = { λ l. l.table.shared.table_id };

    ghost invariant = { λ l. (l.table.shared.table_id.words ≡ 3) × (l.table.shared.table_id.slots ≡ 1) };
}

/// Why no ticket is split off.
#[derive(Debug, Drop)]
pub enum SplitFault {
    /// The numbers up to 63 were given. It carries 64.
    PassesFull(u32),
}

// Draws the next ticket.
fn draw<B: Booked + Drop>(board: &Board<B>, seat: &mut Place<B>) -> u64
    requires own { (seat.old.table_id ≡ board.now.table_id) × (board.now.table_id.words ≡ 3) }
    requires live { seat.old.me.0.live ≡ true }
    requires idle { IsIdle seat.old.me }
    ensures own { (seat.new.table_id ≡ seat.old.table_id) × (seat.new.id ≡ seat.old.id) }
    ensures same { KnowsTheSame seat.old.me.0 seat.new.me.0 }
    ensures waits { IsWaiting result seat.new.me }
{
    board.fetch_add::<Draw>(seat, NEXT_TICKET, 1)
}

// Waits until the ticket is served. It sleeps on the low half of the word, which each turn's end changes.
fn wait<B: Booked + Drop, R: Wait>(rt: &R, board: &Board<B>, seat: &mut Place<B>, drawn: u64)
    requires own { (seat.old.table_id ≡ board.now.table_id) × (board.now.table_id.words ≡ 3) }
    requires live { seat.old.me.0.live ≡ true }
    requires waits { IsWaiting drawn seat.old.me }
    ensures own { (seat.new.table_id ≡ seat.old.table_id) × (seat.new.id ≡ seat.old.id) }
    ensures turn { HasTurn B.history B.seat_of B.rows seat.old.me seat.new.me }
{
    for _ in rt.forever() {
        let served = board.load::<Look>(seat, SERVED);
        if served == drawn {
            return;
        }
        board.park(rt, SERVED, (served % (1 << 32)) as u32);
    }
    unreachable!()
}

// Puts the value into the slot that is held, and counts an entry.
fn put_home<B: Booked + Drop>(board: &Board<B>, seat: &mut Place<B>, value: B, added: bool)
    requires own { (seat.old.table_id ≡ board.now.table_id) × (board.now.table_id.words ≡ 3) }
    requires live { seat.old.me.0.live ≡ true }
    requires turn { IsTaken seat.old.me }
    requires added { Added B.history B.seat_of added value seat.old.me.0 }
    ensures own { (seat.new.table_id ≡ seat.old.table_id) × (seat.new.id ≡ seat.old.id) }
    ensures held { seat.new.me ≡ holding B.history value seat.old.me.0 }
{
    drop(board.exchange(seat, VALUE, Some(value)));
    if added {
        board.fetch_add::<Record>(seat, LENGTH, 1);
    }
}

// Wakes those who wait, where anyone does. Who draws a ticket after this look finds the new word served.
fn wake_waiting<B: Booked + Drop>(board: &Board<B>, ended: u64)
    requires { board.now.table_id.words ≡ 3 }
{
    if board.peek(NEXT_TICKET) != ended.wrapping_add(1) {
        board.wake_all(SERVED);
    }
}

impl<B: Booked + Drop> TurnLock<B> {
    /// The lock round a value, and the ticket of number 0. Of all the calls this one alone takes memory.
    pub fn new(alloc: Global, value: B) -> Result<(TurnLock<B>, Ticket<B>), AllocError>
        requires rows { AtRest B.rows B.rest value }
        requires entries { NoneFrom B.seat_of 1 (B.history value) }
        ensures ticket { IfOk result (λ t. t.1 ≡ first_ticket B.history B.rows t.0 value) }
    {
        let seen_count = value.length();
        let about = Snapshot::of(&value);
        let mut slots = Vec::with_capacity(alloc, 1)?;
        slots.push_reserved(Some(value));
        match Table::new(alloc, &[0, 0, seen_count], slots, &about) {
            Ok((table, seat)) => Ok((
                TurnLock { table },
                Ticket {
                    number: 0,
                    seen_count,
                    next: 1,
                    seat,
                },
            )),
            Err(Refused { slots: _ }) => Err(AllocError),
        }
    }

    /// Gives the next number to a new ticket, which has seen as much. The ticket of number 0 gives the numbers 1 to 63.
    pub fn split(&self, ticket: &mut Ticket<B>) -> Result<Ticket<B>, SplitFault>
        requires own { ticket.old.lock ≡ self.now }
        requires first { ticket.old.number ≡ 0 }
        ensures counted { OnOk result (ticket.new ≡ record ticket.old { next = ticket.old.next + 1 }) }
        ensures given { IfOk result (λ t. t ≡ split_ticket B.rest ticket.old) }
        ensures unseen { OnOk result (NoneOf B.seat_of ticket.old.next ticket.old.seen) }
        ensures full { IfErr result (λ e. e ≡ SplitFault.PassesFull 64) }
        // The next number is 64 exactly where the numbers up to 63 were given.
        ensures full_where { IsErr result ↔ (ticket.old.next ≡ 64) }
        ensures refused { OnErr result (ticket.new ≡ ticket.old) }
    {
        if ticket.next >= SEATS {
            return Err(SplitFault::PassesFull(SEATS));
        }
        let number = ticket.next;
        let seat = self.table.shared.split_seat::<Give<B>>(&mut ticket.seat);
        ticket.next += 1;
        Ok(Ticket {
            number,
            seen_count: ticket.seen_count,
            next: 0,
            seat,
        })
    }

    /// Takes in what another ticket has seen. The other ticket's number is not used again.
    pub fn join(&self, ticket: &mut Ticket<B>, other: Ticket<B>)
        requires own { (ticket.old.lock ≡ self.now) × (other.lock ≡ self.now) }
        requires idle { other.turn ≡ None }
        ensures longer { ticket.new ≡ record ticket.old { seen = longer ticket.old.seen other.seen } }
        ensures mine { Lags B.seat_of ticket.old.number ticket.old.seen ticket.new.seen }
        ensures theirs { Begins other.seen ticket.new.seen }
        ensures in_turn { IsSome ticket.old.turn → ticket.new.seen ≡ ticket.old.seen }
    {
        let board = &self.table.shared;
        let Ticket {
            number: _,
            seen_count,
            next: _,
            seat,
        } = other;
        board.join_seat::<TakeIn<B>>(&mut ticket.seat, seat);
        board.load::<Compare>(&mut ticket.seat, NEXT_TICKET);
        ticket.seen_count = ticket.seen_count.max(seen_count);
    }

    /// Waits for a turn, and takes the value out.
    pub fn enter<R: Wait>(&self, rt: &R, ticket: &mut Ticket<B>) -> B
        requires own { ticket.old.lock ≡ self.now }
        requires idle { ticket.old.turn ≡ None }
        ensures turn { ticket.new ≡ record ticket.old { seen = B.history result; turn = Some result } }
        ensures seen { Lags B.seat_of ticket.old.number ticket.old.seen (B.history result) }
        ensures row { B.rows result ticket.old.number ≡ ticket.old.row }
    {
        let board = &self.table.shared;
        let drawn = draw::<B>(board, &mut ticket.seat);
        wait::<B, R>(rt, board, &mut ticket.seat, drawn);
        let value = board.exchange(&mut ticket.seat, VALUE, None).unwrap();
        ticket.seen_count = value.length();
        value
    }

    /// Puts the value back, and ends the turn.
    pub fn leave(&self, ticket: &mut Ticket<B>, value: B)
        requires own { ticket.old.lock ≡ self.now }
        requires turn { IsSome ticket.old.turn }
        requires rows { KeepsRows B.rows ticket.old value }
        requires entry { GainsOne B.history B.seat_of ticket.old value }
        ensures left { ticket.new ≡ after_leaving B.history B.rows value ticket.old }
    {
        let board = &self.table.shared;
        let length = value.length();
        let added = length != ticket.seen_count;
        put_home::<B>(board, &mut ticket.seat, value, added);
        ticket.seen_count = length;
        let ended = board.fetch_add::<Done>(&mut ticket.seat, SERVED, 1);
        wake_waiting::<B>(board, ended);
    }
}
