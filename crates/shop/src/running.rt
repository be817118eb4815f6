//! Sharing, and the requests that run.
ghost use Rattle.std.specs.Prelude.{◌≡◌, ◌<◌, ◌≤◌, ◌∷◌, [], ℕ, ◌+◌, true, false, length, IfOk, IfErr, OnOk, OnErr, Ok};
ghost use Rattle.std.specs.Prelude.{None, ◌≢◌};
ghost use Rattle.turn_lock.specs.Entries.{Lags};
ghost use Rattle.system_events.specs.declared.event.Kept.{Kept};
ghost use Rattle.system_events.specs.declared.event.Cause.{Cause};
ghost use Rattle.system_events.specs.Guards.{request_limits};
ghost use Rattle.system_events.specs.Steps.{Condition, IsCause};
ghost use Rattle.shop_base.specs.Rows.{resting, sharing_seat, running_seat, IsRunning, with_room, at_rest};
ghost use Rattle.shop_base.specs.Passes.{seat_of, seen_state, moved, Made};
ghost use Rattle.shop_desk.specs.Limits.{IsLimit};

use crate::pass::Pass;
use crate::receipt::Receipt;
use crate::shop::Shop;
use shop_desk::BeginFault;
use std::alloc::AllocError;
use std::sync::Wait;
use system_core::{Cause, Matter};

impl<M: Matter> Shop<M> {
    /// Shares, as soon as a share isn't busy. It sets room aside for the end of it.
    #[tactic(auto, using(crate::proofs::Turns::made_later))]
    pub fn start_running<R: Wait>(&self, rt: &R, pass: &mut Pass<M>) -> Result<(), AllocError>
        requires own { pass.old.shop ≡ self.now }
        requires rests { pass.old.row ≡ at_rest }
        ensures made { OnOk result ((pass.new ≡ moved pass.old (with_room sharing_seat 1 0) pass.new.seen)
            × Made pass.old.number Kept.Share pass.old.seen pass.new.seen) }
        ensures err { OnErr result ((pass.new ≡ moved pass.old pass.old.row pass.new.seen)
            × Lags seat_of pass.old.number pass.old.seen pass.new.seen) }
    {
        let heard = self.bell.rings();
        if self.first_share(rt, pass)? {
            return Ok(());
        }
        self.bell.wait(rt, heard);
        self.await_share(rt, pass);
        Ok(())
    }

    // Sets room aside and tries to share, in one turn.
    fn first_share<R: Wait>(&self, rt: &R, pass: &mut Pass<M>) -> Result<bool, AllocError>
        requires own { pass.old.shop ≡ self.now }
        requires rests { pass.old.row ≡ at_rest }
        ensures made { result ≡ Ok true → (pass.new ≡ moved pass.old (with_room sharing_seat 1 0) pass.new.seen)
            × Made pass.old.number Kept.Share pass.old.seen pass.new.seen }
        ensures busy { result ≡ Ok false → (pass.new ≡ moved pass.old (with_room resting 2 0) pass.new.seen)
            × Lags seat_of pass.old.number pass.old.seen pass.new.seen }
        ensures err { OnErr result ((pass.new ≡ moved pass.old pass.old.row pass.new.seen)
            × Lags seat_of pass.old.number pass.old.seen pass.new.seen) }
    {
        let number = pass.ticket.number();
        let mut desk = self.lock.enter(rt, &mut pass.ticket);
        let shared = desk.first_share(number);
        self.leave(&mut pass.ticket, &mut pass.generation, desk);
        shared
    }

    // Tries to share, in one turn.
    fn try_share<R: Wait>(&self, rt: &R, pass: &mut Pass<M>) -> bool
        requires own { pass.old.shop ≡ self.now }
        requires rests { pass.old.row ≡ with_room resting 2 0 }
        ensures made { result ≡ true → (pass.new ≡ moved pass.old (with_room sharing_seat 1 0) pass.new.seen)
            × Made pass.old.number Kept.Share pass.old.seen pass.new.seen }
        ensures busy { result ≡ false → (pass.new ≡ moved pass.old pass.old.row pass.new.seen)
            × Lags seat_of pass.old.number pass.old.seen pass.new.seen }
    {
        let number = pass.ticket.number();
        let mut desk = self.lock.enter(rt, &mut pass.ticket);
        let shared = desk.share(number);
        self.leave(&mut pass.ticket, &mut pass.generation, desk);
        shared
    }

    // Shares, as soon as a share isn't busy.
    #[tactic(auto, using(crate::proofs::Turns::lags_later, crate::proofs::Turns::lags_self))]
    fn await_share<R: Wait>(&self, rt: &R, pass: &mut Pass<M>)
        requires own { pass.old.shop ≡ self.now }
        requires rests { pass.old.row ≡ with_room resting 2 0 }
        ensures same { pass.new ≡ moved pass.old (with_room sharing_seat 1 0) pass.new.seen }
        ensures made { Made pass.old.number Kept.Share pass.old.seen pass.new.seen }
    {
        'tries: for _ in rt.forever() {
            let heard = self.bell.rings();
            if self.try_share(rt, pass) {
                return;
            }
            self.bell.wait(rt, heard);
        }
        unreachable!()
    }

    /// Gives the share back.
    pub fn done_running<R: Wait>(&self, rt: &R, pass: &mut Pass<M>)
        requires own { pass.old.shop ≡ self.now }
        requires shares { pass.old.row.seat ≡ sharing_seat }
        requires room { 1 ≤ pass.old.row.entries }
        ensures same { pass.new ≡ moved pass.old at_rest pass.new.seen }
        ensures made { Made pass.old.number Kept.Unshare pass.old.seen pass.new.seen }
    {
        let number = pass.ticket.number();
        let mut desk = self.lock.enter(rt, &mut pass.ticket);
        desk.unshare(number);
        self.leave(&mut pass.ticket, &mut pass.generation, desk);
        self.bell.ring();
    }

    /// Begins a request, and answers the place of its Begin. It sets room aside for the end of it, and for one pair of
    /// `permit_begin` and `permit_end`.
    pub fn begin<R: Wait>(
        &self,
        rt: &R,
        pass: &mut Pass<M>,
        request: M::Request,
    ) -> Result<u64, BeginFault>
        requires own { pass.old.shop ≡ self.now }
        requires shares { pass.old.row.seat ≡ sharing_seat }
        requires room { 1 ≤ pass.old.row.entries }
        requires request { M.facts.IsRequest request }
        ensures same { IfOk result (λ place.
            pass.new ≡ moved pass.old (with_room (running_seat place) 4 0) pass.new.seen) }
        ensures made { OnOk result (Made pass.old.number (Kept.Begin request) pass.old.seen pass.new.seen) }
        // The place is that of the last entry seen.
        ensures place { IfOk result (λ place. length pass.new.seen ≡ place + 1) }
        // Where it answers a limit, that limit is met after what was seen then.
        ensures limit { IfErr result (IsLimit (request_limits (seen_state M.facts pass.new).counts)) }
        ensures refused { OnErr result ((pass.new ≡ moved pass.old pass.old.row pass.new.seen)
            × Lags seat_of pass.old.number pass.old.seen pass.new.seen) }
    {
        let number = pass.ticket.number();
        let mut desk = self.lock.enter(rt, &mut pass.ticket);
        let begun = desk.begin(number, request);
        self.leave(&mut pass.ticket, &mut pass.generation, desk);
        match begun {
            Ok(place) => {
                pass.begun = pass.begun.saturating_add(1);
                Ok(place)
            }
            Err(fault) => Err(fault),
        }
    }

    /// Ends the request that runs, with its reply on the generation in force.
    pub fn end<R: Wait>(&self, rt: &R, pass: &mut Pass<M>, reply: M::Reply) -> Receipt
        requires own { pass.old.shop ≡ self.now }
        requires runs { IsRunning pass.old.row.seat }
        requires room { 2 ≤ pass.old.row.entries }
        requires reply { Condition M.facts (seen_state M.facts pass.old) pass.old.number (Kept.End reply) }
        ensures same { pass.new ≡ moved pass.old (with_room sharing_seat 1 0) pass.new.seen }
        ensures made { Made pass.old.number (Kept.End reply) pass.old.seen pass.new.seen }
        ensures begun { pass.old.row.seat ≡ running_seat result.begun }
        ensures ended { length pass.new.seen ≡ result.ended + 1 }
        ensures generation { result.generation ≡ (seen_state M.facts pass.new).counts.generation }
    {
        let number = pass.ticket.number();
        let mut desk = self.lock.enter(rt, &mut pass.ticket);
        desk.tells_legal();
        let begun = desk.running_place(number);
        let ended = desk.entry_count();
        desk.end(number, reply);
        self.leave(&mut pass.ticket, &mut pass.generation, desk);
        Receipt {
            number: pass.begun,
            begun,
            ended,
            generation: pass.generation,
        }
    }

    /// Refuses the request that runs, for want of memory.
    pub fn abandon<R: Wait>(&self, rt: &R, pass: &mut Pass<M>)
        requires own { pass.old.shop ≡ self.now }
        requires runs { IsRunning pass.old.row.seat }
        requires room { 2 ≤ pass.old.row.entries }
        ensures same { pass.new ≡ moved pass.old (with_room sharing_seat 1 0) pass.new.seen }
        ensures made { Made pass.old.number (Kept.Refuse Cause.Memory) pass.old.seen pass.new.seen }
    {
        let number = pass.ticket.number();
        let mut desk = self.lock.enter(rt, &mut pass.ticket);
        desk.abandon(number);
        self.leave(&mut pass.ticket, &mut pass.generation, desk);
    }

    /// Enters the refusal of a request that isn't begun, for another cause than want of memory, and answers its place.
    pub fn refuse<R: Wait>(
        &self,
        rt: &R,
        pass: &mut Pass<M>,
        cause: Cause<M>,
    ) -> Result<u64, BeginFault>
        requires own { pass.old.shop ≡ self.now }
        requires idle { pass.old.row.seat.running ≡ None }
        requires other { cause ≢ Cause.Memory }
        requires cause { IsCause M.facts cause }
        ensures same { pass.new ≡ moved pass.old pass.old.row pass.new.seen }
        ensures made { OnOk result (Made pass.old.number (Kept.Refuse cause) pass.old.seen pass.new.seen) }
        // The place is that of the last entry seen.
        ensures place { IfOk result (λ place. length pass.new.seen ≡ place + 1) }
        // Where it answers a limit, that limit is met after what was seen then.
        ensures limit { IfErr result (IsLimit (request_limits (seen_state M.facts pass.new).counts)) }
        ensures refused { OnErr result (Lags seat_of pass.old.number pass.old.seen pass.new.seen) }
    {
        let number = pass.ticket.number();
        let mut desk = self.lock.enter(rt, &mut pass.ticket);
        let refused = desk.refuse(number, cause);
        self.leave(&mut pass.ticket, &mut pass.generation, desk);
        refused
    }
}
