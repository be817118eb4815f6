//! One worker.
ghost use Rattle.std.specs.Prelude.{◌≡◌, false, length, IfSome};
ghost use Rattle.outside_links.specs.LinkState.{IsUnused};
ghost use Rattle.connection_items.specs.Answers.{LinkIsAnswered};
ghost use Rattle.connection_items.specs.declared.ends.End.TheVariants.{Memory};
ghost use Rattle.serve_port.specs.Answered.{TellsAnswered};
ghost use Rattle.serve_port.specs.Became.{Became};

use crate::held_port::HeldPort;
use crate::shared_port::{PortLedger, SharedPort, take_next};
use connection_items::End;
use outside_links::{Closer, Link};
use std::alloc::Global;
use std::sync::ledger::Share;
use std::sync::{Mutex, Wait};
use worker::{ServesHeads, serve_connection};

/// What one thread works with.
#[derive(Drop)]
pub struct Worker<S, C, K: PortLedger> {
    pub alloc: Global,
    pub server: S,
    pub closer: C,
    /// Its part of the ledger: how many links it took.
    pub share: Share<K>,
    /// One of its connections found no memory.
    pub short: bool,
}

/// Whether one of two is true.
pub fn either(one: bool, other: bool) -> bool
    ensures { result ≡ false → (one ≡ false) × (other ≡ false) }
{
    one || other
}

/// Whether a connection found no memory.
fn fell_short<F: Drop>(end: End<F>) -> bool
    ensures { result ≡ false → end ≡ Memory → ⊥ }
{
    match end {
        End::Memory => true,
        _ => false,
    }
}

#[tactic(auto, using(crate::proofs::Served::became_in))]
/// Serves a link that was not used before. Whether it found no memory.
fn serve_link<S: ServesHeads, L: Link, R: Wait>(
    rt: &R,
    alloc: Global,
    server: &mut S,
    link: &mut L,
) -> bool
    requires ready { S.is_at_rest server.old }
    requires unused { IsUnused (L.read_faults link.old) (L.write_faults link.old)
        (L.was_read link.old) (L.was_written link.old) }
    ensures ready { S.is_at_rest server.new }
    ensures became { Became (S.standing server.old) (S.standing server.new) }
    ensures answered { result ≡ false → LinkIsAnswered S.rules (L.read_faults link.new) (L.write_faults link.new)
        (L.was_read link.new) (L.left link.new) (L.was_written link.new) }
{
    let served = serve_connection(rt, alloc, server, link);
    fell_short(served.end)
}

/// A closer that got no link tells none. It is there for the prover.
fn tells_nothing<C: Closer<L>, L: Link>(closer: &C)
    requires { C.count closer.now ≡ 0 }
    ensures { IfSome (C.told closer.now) (λ links. length links ≡ 0) }
{
    let _ = closer;
}

/// Takes connections, serves and closes them until the port has ended or failed.
pub fn work<Q: HeldPort, S: ServesHeads, C: Closer<Q::Conn>, K: PortLedger, R: Wait>(
    rt: &R,
    shared: &Mutex<SharedPort<Q, K>>,
    worker: Worker<S, C, K>,
) -> Worker<S, C, K>
    requires share { (worker.share.parts ≡ 1) × (worker.share.amount ≡ 0) }
    requires closer { C.count worker.closer ≡ 0 }
    requires ready { S.is_at_rest worker.server }
    ensures parts { result.share.parts ≡ 1 }
    ensures count { C.count result.closer ≡ result.share.amount }
    ensures ready { S.is_at_rest result.server }
    ensures became { Became (S.standing worker.server) (S.standing result.server) }
    ensures answered { result.short ≡ false → TellsAnswered (λ link. LinkIsAnswered S.rules
        (Q.Conn.read_faults link) (Q.Conn.write_faults link) (Q.Conn.was_read link) (Q.Conn.left link)
        (Q.Conn.was_written link)) (C.told result.closer) }
{
    let Worker {
        alloc,
        mut server,
        mut closer,
        mut share,
        short: _,
    } = worker;
    tells_nothing::<C, Q::Conn>(&closer);
    let mut short = false;
    'links: for _ in rt.forever() {
        let Some(mut link) = take_next(rt, shared, &mut share) else {
            break;
        };
        let fell = serve_link(rt, alloc, &mut server, &mut link);
        short = either(short, fell);
        closer.close(link);
    }
    Worker {
        alloc,
        server,
        closer,
        share,
        short,
    }
}
