//! The port under its lock.
ghost use Rattle.std.specs.Prelude.{◌≡◌, ◌<◌, ◌≤◌, ◌+◌, ◌^◌, ℕ, true, false, length, IfSome, IfNone};
ghost use Rattle.std.specs.Option.{ForSome};
ghost use Rattle.outside.specs.Faults.{Rose};
ghost use Rattle.outside_links.specs.LinkState.{IsUnused};

use crate::held_port::HeldPort;
use outside_links::PortAns;
use std::marker::Brand;
use std::sync::ledger::{Book, Ledger, Share};
use std::sync::{Mutex, Wait};

/// A ledger of the links of one port, with what is known of the port where the ledger begins: which it is, how many
/// links it had given, how many of its calls had failed.
pub trait PortLedger: Ledger {
    ghost port: { ℕ };

    ghost given: { ℕ };

    ghost faults: { ℕ };
}

impl PortLedger for Brand {
    ghost port = { 0 };

    ghost given = { 0 };

    ghost faults = { 0 };
}

/// What lies under the lock: the port, whether it has answered End, whether a call of it failed, and the book of the
/// links that were taken.
#[derive(Drop)]
pub struct SharedPort<Q: HeldPort, K: PortLedger> {
    port: Q,
    ended: bool,
    failed: bool,
    book: Book<K>,
    ghost same: { Q.name port ≡ K.port },
    ghost counted: { Q.given port ≡ K.given + book.total },
    ghost later: { K.faults ≤ Q.faults port },
    ghost end: { ended ≡ true → Q.has_ended port ≡ true },
    ghost left: { ended ≡ true → ForSome (Q.left port) (λ links. length links ≡ 0) },
    ghost fault: { failed ≡ true → Rose K.faults (Q.faults port) },
}

impl<Q: HeldPort, K: PortLedger> SharedPort<Q, K> {
    /// The port of the ledger, as it is where the ledger begins.
    pub fn new(port: Q, book: Book<K>) -> SharedPort<Q, K>
        requires port { (Q.name port ≡ K.port) × (Q.given port ≡ K.given) × (Q.faults port ≡ K.faults) }
        requires book { book.total ≡ 0 }
    {
        SharedPort {
            port,
            ended: false,
            failed: false,
            book,
        }
    }

    #[tactic(auto, using(crate::proofs::Counts::rose_since, crate::proofs::Counts::counts_later))]
    /// The next link, which is counted in the share; None where the port has ended or failed.
    pub fn take(&mut self, mine: &mut Share<K>) -> Option<Q::Conn>
        requires { 0 < mine.old.parts }
        ensures parts { mine.new.parts ≡ mine.old.parts }
        ensures some { IfSome result (λ _. (mine.new.amount ≡ mine.old.amount + 1) × (mine.new.amount < 2 ^ 64)) }
        ensures none { IfNone result (mine.new.amount ≡ mine.old.amount) }
        ensures unused { IfSome result (λ link. IsUnused (Q.Conn.read_faults link) (Q.Conn.write_faults link)
            (Q.Conn.was_read link) (Q.Conn.was_written link)) }
    {
        if self.ended || self.failed {
            return None;
        }
        let SharedPort {
            port,
            ended,
            failed,
            book,
        } = self;
        match port.accept() {
            PortAns::Link(link) => {
                book.add(mine, 1);
                book.audit(mine);
                Some(link)
            }
            PortAns::End => {
                *ended = true;
                None
            }
            PortAns::Failed => {
                *failed = true;
                None
            }
        }
    }

    /// The port, whether it ended and whether it failed, where every share is back.
    pub fn close(self, all: &mut Share<K>) -> (Q, bool, bool)
        requires { all.old.parts ≡ K.parts }
        ensures name { Q.name result.0 ≡ K.port }
        ensures ended { result.1 ≡ true → Q.has_ended result.0 ≡ true }
        ensures left { result.1 ≡ true → ForSome (Q.left result.0) (λ links. length links ≡ 0) }
        ensures failed { result.2 ≡ true → Rose K.faults (Q.faults result.0) }
        ensures later { K.faults ≤ Q.faults result.0 }
        ensures given { Q.given result.0 ≡ K.given + all.old.amount }
    {
        let SharedPort {
            port,
            ended,
            failed,
            mut book,
        } = self;
        book.audit(all);
        (port, ended, failed)
    }
}

/// The next link, accepted under the lock.
pub fn take_next<Q: HeldPort, K: PortLedger, R: Wait>(
    rt: &R,
    shared: &Mutex<SharedPort<Q, K>>,
    mine: &mut Share<K>,
) -> Option<Q::Conn>
    requires { 0 < mine.old.parts }
    ensures parts { mine.new.parts ≡ mine.old.parts }
    ensures some { IfSome result (λ _. (mine.new.amount ≡ mine.old.amount + 1) × (mine.new.amount < 2 ^ 64)) }
    ensures none { IfNone result (mine.new.amount ≡ mine.old.amount) }
    ensures unused { IfSome result (λ link. IsUnused (Q.Conn.read_faults link) (Q.Conn.write_faults link)
        (Q.Conn.was_read link) (Q.Conn.was_written link)) }
{
    shared.lock(rt).take(mine)
}
