//! Sharing, and the requests that run.
ghost use Rattle.std.specs.Prelude.{◌≡◌, ◌≢◌, ◌<◌, ◌≤◌, ◌+◌, ◌++◌, ◌∷◌, [], ℕ, true, false, length, slice_index};
ghost use Rattle.std.specs.Prelude.{None, IfOk};
ghost use Rattle.std.specs.Prelude.{IfErr, OnErr, OnOk, Ok, Some};
ghost use Rattle.system_events.specs.declared.event.Kept.{Kept};
ghost use Rattle.system_events.specs.declared.event.Cause.{Cause};
ghost use Rattle.system_events.specs.Guards.{request_limits};
ghost use Rattle.system_events.specs.Steps.{Condition};
ghost use Rattle.shop_base.specs.Rows.{resting, sharing_seat, running_seat, IsRunning, with_room, at_rest};
ghost use Rattle.shop_base.specs.Passes.{entry, begins};
ghost use Rattle.shop_desk.specs.Ledgers.{desk_row, OthersStay, OneMore, setting_aside};
ghost use Rattle.shop_desk.specs.Limits.{IsLimit};

use crate::desk::Desk;
use std::alloc::AllocError;
use system_core::{Act, Applied, Cause, Guard, Matter};

/// Why a request isn't begun, or its refusal isn't entered.
#[derive(Debug, Drop)]
pub enum BeginFault {
    /// There were 100,000 requests, which it carries.
    RequestsFull(u32),
    /// There are so many bytes of replies, 256 MiB or more.
    RepliesFull(u64),
    Memory,
}

// The limit that a guard of a request tells.
fn fault_of(guard: Guard) -> BeginFault
    ensures { IsLimit (Some guard) result }
{
    match guard {
        Guard::RequestsFull(n) => BeginFault::RequestsFull(n),
        Guard::RepliesFull(n) => BeginFault::RepliesFull(n),
        _ => BeginFault::Memory,
    }
}

impl<M: Matter> Desk<M> {
    /// Takes a share, if it isn't busy.
    pub fn share(&mut self, seat: u32) -> bool
        requires seat { seat < 64 }
        requires rests { (desk_row self.old seat).seat ≡ resting }
        requires room { 2 ≤ slice_index self.old.entries seat }
        ensures entry { result ≡ true →
            self.new.state.history ≡ self.old.state.history ++ entry seat Kept.Share ∷ [] }
        ensures row { result ≡ true → desk_row self.new seat ≡ with_room sharing_seat 1 0 }
        ensures busy { result ≡ false → self.new ≡ self.old }
        ensures begun { begins seat self.new.state.history ≡ begins seat self.old.state.history }
        ensures gained { OneMore seat self.old self.new }
        ensures others { OthersStay seat self.old self.new }
    {
        match self.act(seat, Act::Share, 1, 0) {
            Applied::Done => true,
            Applied::Refused(..) => false,
        }
    }

    /// Sets room aside for sharing, and takes a share if it isn't busy.
    pub fn first_share(&mut self, seat: u32) -> Result<bool, AllocError>
        requires seat { seat < 64 }
        requires rests { desk_row self.old seat ≡ at_rest }
        ensures entry { result ≡ Ok true →
            self.new.state.history ≡ self.old.state.history ++ entry seat Kept.Share ∷ [] }
        ensures row { result ≡ Ok true → desk_row self.new seat ≡ with_room sharing_seat 1 0 }
        ensures busy { result ≡ Ok false → (self.new.state ≡ self.old.state)
            × (desk_row self.new seat ≡ with_room resting 2 0) }
        ensures err { OnErr result (self.new ≡ self.old) }
        ensures begun { begins seat self.new.state.history ≡ begins seat self.old.state.history }
        ensures gained { OneMore seat self.old self.new }
        ensures others { OthersStay seat self.old self.new }
    {
        self.set_aside(seat, 2, 0)?;
        Ok(self.share(seat))
    }

    /// Gives the share back, and all that is set aside.
    pub fn unshare(&mut self, seat: u32)
        requires seat { seat < 64 }
        requires shares { (desk_row self.old seat).seat ≡ sharing_seat }
        requires room { 1 ≤ slice_index self.old.entries seat }
        ensures entry { self.new.state.history ≡ self.old.state.history ++ entry seat Kept.Unshare ∷ [] }
        ensures row { desk_row self.new seat ≡ at_rest }
        ensures begun { begins seat self.new.state.history ≡ begins seat self.old.state.history }
        ensures gained { OneMore seat self.old self.new }
        ensures others { OthersStay seat self.old self.new }
    {
        match self.act(seat, Act::Unshare, 0, 0) {
            Applied::Done => {}
            Applied::Refused(..) => unreachable!(),
        }
    }

    /// Begins a request, and answers the place of its Begin. Where a limit is met nothing changes.
    pub fn begin(&mut self, seat: u32, request: M::Request) -> Result<u64, BeginFault>
        requires seat { seat < 64 }
        requires shares { (desk_row self.old seat).seat ≡ sharing_seat }
        requires room { 1 ≤ slice_index self.old.entries seat }
        requires request { Condition M.facts self.old.state seat (Kept.Begin request) }
        ensures entry { IfOk result (λ place. (place ≡ length self.old.state.history)
            × (self.new.state.history ≡ self.old.state.history ++ entry seat (Kept.Begin request) ∷ [])) }
        ensures row { IfOk result (λ place. desk_row self.new seat ≡ with_room (running_seat place) 4 0) }
        ensures limit { IfErr result (IsLimit (request_limits self.old.state.counts)) }
        ensures refused { OnErr result (self.new ≡ self.old) }
        ensures begun { OnOk result (begins seat self.new.state.history
            ≡ begins seat self.old.state.history + 1) }
        ensures gained { OneMore seat self.old self.new }
        ensures others { OthersStay seat self.old self.new }
    {
        let entries = self.entries_of(seat);
        let values = self.values_of(seat);
        match self.set_aside(seat, 4, 0) {
            Ok(()) => self.begin_reserved(seat, request, entries, values),
            Err(_) => Err(BeginFault::Memory),
        }
    }

    // Begins a request, for which room is set aside already, or leaves so much aside.
    fn begin_reserved(
        &mut self,
        seat: u32,
        request: M::Request,
        entries: u32,
        values: u32,
    ) -> Result<u64, BeginFault>
        requires seat { seat < 64 }
        requires shares { (desk_row self.old seat).seat ≡ sharing_seat }
        requires room { (5 ≤ slice_index self.old.entries seat) × (entries ≤ slice_index self.old.entries seat) }
        requires values { values ≤ slice_index self.old.values seat }
        requires request { Condition M.facts self.old.state seat (Kept.Begin request) }
        ensures entry { IfOk result (λ place. (place ≡ length self.old.state.history)
            × (self.new.state.history ≡ self.old.state.history ++ entry seat (Kept.Begin request) ∷ [])) }
        ensures row { IfOk result (λ place. desk_row self.new seat ≡ with_room (running_seat place) 4 0) }
        ensures limit { IfErr result (IsLimit (request_limits self.old.state.counts)) }
        ensures refused { OnErr result (self.new ≡ setting_aside self.old seat entries values) }
        ensures begun { OnOk result (begins seat self.new.state.history
            ≡ begins seat self.old.state.history + 1) }
        ensures gained { OneMore seat self.old self.new }
        ensures others { OthersStay seat self.old self.new }
    {
        let place = self.entry_count();
        match self.act(seat, Act::Begin(request), 4, 0) {
            Applied::Done => Ok(place),
            Applied::Refused(guard, _) => {
                self.give_up(seat, entries, values);
                Err(fault_of(guard))
            }
        }
    }

    /// The place of the Begin of the request that a seat runs.
    pub fn running_place(&self, seat: u32) -> u64
        requires seat { seat < 64 }
        requires runs { IsRunning (desk_row self.now seat).seat }
        ensures { (desk_row self.now seat).seat ≡ running_seat result }
    {
        self.tells_legal();
        match self.system.row(seat).running {
            Some(place) => place,
            None => unreachable!(),
        }
    }

    /// Ends the request that runs, with its reply.
    pub fn end(&mut self, seat: u32, reply: M::Reply)
        requires seat { seat < 64 }
        requires runs { IsRunning (desk_row self.old seat).seat }
        requires room { 2 ≤ slice_index self.old.entries seat }
        requires reply { Condition M.facts self.old.state seat (Kept.End reply) }
        ensures entry { self.new.state.history ≡ self.old.state.history ++ entry seat (Kept.End reply) ∷ [] }
        ensures row { desk_row self.new seat ≡ with_room sharing_seat 1 0 }
        ensures begun { begins seat self.new.state.history ≡ begins seat self.old.state.history }
        ensures gained { OneMore seat self.old self.new }
        ensures others { OthersStay seat self.old self.new }
    {
        match self.act(seat, Act::End(reply), 1, 0) {
            Applied::Done => {}
            Applied::Refused(..) => unreachable!(),
        }
    }

    /// Refuses the request that runs, for want of memory.
    pub fn abandon(&mut self, seat: u32)
        requires seat { seat < 64 }
        requires runs { IsRunning (desk_row self.old seat).seat }
        requires room { 2 ≤ slice_index self.old.entries seat }
        ensures entry { self.new.state.history
            ≡ self.old.state.history ++ entry seat (Kept.Refuse Cause.Memory) ∷ [] }
        ensures row { desk_row self.new seat ≡ with_room sharing_seat 1 0 }
        ensures begun { begins seat self.new.state.history ≡ begins seat self.old.state.history }
        ensures gained { OneMore seat self.old self.new }
        ensures others { OthersStay seat self.old self.new }
    {
        match self.act(seat, Act::Refuse(Cause::Memory), 1, 0) {
            Applied::Done => {}
            Applied::Refused(..) => unreachable!(),
        }
    }

    /// Enters the refusal of a request that isn't begun, for another cause than want of memory, and answers its place.
    /// Where a limit is met nothing changes.
    pub fn refuse(&mut self, seat: u32, cause: Cause<M>) -> Result<u64, BeginFault>
        requires seat { seat < 64 }
        requires idle { (desk_row self.old seat).seat.running ≡ None }
        requires other { cause ≢ Cause.Memory }
        requires cause { Condition M.facts self.old.state seat (Kept.Refuse cause) }
        ensures entry { IfOk result (λ place. (place ≡ length self.old.state.history)
            × (self.new.state.history ≡ self.old.state.history ++ entry seat (Kept.Refuse cause) ∷ [])) }
        ensures row { desk_row self.new seat ≡ desk_row self.old seat }
        ensures limit { IfErr result (IsLimit (request_limits self.old.state.counts)) }
        ensures refused { OnErr result (self.new ≡ self.old) }
        ensures begun { begins seat self.new.state.history ≡ begins seat self.old.state.history }
        ensures gained { OneMore seat self.old self.new }
        ensures others { OthersStay seat self.old self.new }
    {
        let entries = self.entries_of(seat);
        let values = self.values_of(seat);
        match self.set_aside(seat, 1, 0) {
            Ok(()) => self.refuse_reserved(seat, cause, entries, values),
            Err(_) => Err(BeginFault::Memory),
        }
    }

    // Enters a refusal, for which room is set aside already, and leaves so much aside.
    fn refuse_reserved(
        &mut self,
        seat: u32,
        cause: Cause<M>,
        entries: u32,
        values: u32,
    ) -> Result<u64, BeginFault>
        requires seat { seat < 64 }
        requires idle { (desk_row self.old seat).seat.running ≡ None }
        requires room { entries + 1 ≤ slice_index self.old.entries seat }
        requires values { values ≤ slice_index self.old.values seat }
        requires other { cause ≢ Cause.Memory }
        requires cause { Condition M.facts self.old.state seat (Kept.Refuse cause) }
        ensures entry { IfOk result (λ place. (place ≡ length self.old.state.history)
            × (self.new.state.history ≡ self.old.state.history ++ entry seat (Kept.Refuse cause) ∷ [])) }
        ensures row { desk_row self.new seat ≡ with_room (desk_row self.old seat).seat entries values }
        ensures limit { IfErr result (IsLimit (request_limits self.old.state.counts)) }
        ensures refused { OnErr result (self.new ≡ setting_aside self.old seat entries values) }
        ensures begun { begins seat self.new.state.history ≡ begins seat self.old.state.history }
        ensures gained { OneMore seat self.old self.new }
        ensures others { OthersStay seat self.old self.new }
    {
        let place = self.entry_count();
        match self.act(seat, Act::Refuse(cause), entries, values) {
            Applied::Done => Ok(place),
            Applied::Refused(guard, _) => {
                self.give_up(seat, entries, values);
                Err(fault_of(guard))
            }
        }
    }
}
