//! The workers of one port.
ghost use Rattle.std.specs.Prelude.{◌≡◌, ◌+◌, true, false, length, All, vec_len, vec_capacity};
ghost use Rattle.std.specs.Option.{ForSome};
ghost use denote.Param.Send.{IsSync, IsSend};
ghost use Rattle.outside.specs.Faults.{Rose};
ghost use Rattle.connection_items.specs.Answers.{LinkIsAnswered};
ghost use Rattle.serve_port.specs.Became.{Became, AllBecame};
ghost use Rattle.serve_port.specs.Answered.{links_got, AllTellAnswered, TellsAnswered, SameRoom};
ghost use Rattle.serve_port.specs.declared.crew.PortEnd.TheVariants.{Ended, Failed};

use crate::held_port::HeldPort;
use crate::shared_port::{PortLedger, SharedPort};
use crate::work::{Worker, either, work};
use outside_links::{Closer, Port};
use std::alloc::Global;
use std::marker::Brand;
use std::sync::ledger::{Blank, Share};
use std::sync::{Mutex, Wait};
use std::thread::Threads;
use std::{mem, thread};
use worker::ServesHeads;

/// What the workers work with: as many closers as servers.
#[derive(Drop)]
pub struct Rows<S, C> {
    pub servers: Vec<S>,
    pub closers: Vec<C>,
}

#[cycle(crew)]
#[tactic(auto, using(crate::proofs::Rows::links_got_more, crate::proofs::Rows::all_but_last, crate::proofs::Rows::holds_of_last))]
/// Each worker on a thread of its own, where one can be made. The last says whether a connection found no memory.
pub fn serve_all<
    Q: HeldPort,
    S: ServesHeads + Send + Drop,
    C: Closer<Q::Conn>,
    K: PortLedger + Send + Sync,
    R: Threads + Wait + Sync,
>(
    rt: &R,
    alloc: Global,
    shared: &Mutex<SharedPort<Q, K>>,
    mut rows: Rows<S, C>,
    mut share: Share<K>,
) -> (Rows<S, C>, Share<K>, bool)
    requires share { (share.parts ≡ vec_len rows.closers) × (share.amount ≡ 0) }
    requires lens { vec_len rows.servers ≡ vec_len rows.closers }
    requires fresh { All (λ c. C.count c ≡ 0) rows.closers.items }
    requires ready { All S.is_at_rest rows.servers.items }
    ensures servers { SameRoom (vec_len rows.servers) (vec_capacity rows.servers)
        (vec_len result.0.servers) (vec_capacity result.0.servers) }
    ensures closers { SameRoom (vec_len rows.closers) (vec_capacity rows.closers)
        (vec_len result.0.closers) (vec_capacity result.0.closers) }
    ensures parts { result.1.parts ≡ share.parts }
    ensures got { links_got C.count result.0.closers.items ≡ result.1.amount }
    ensures ready { All S.is_at_rest result.0.servers.items }
    ensures became { AllBecame S.standing rows.servers.items result.0.servers.items }
    ensures answered { result.2 ≡ false → AllTellAnswered
        (λ link. LinkIsAnswered S.rules (Q.Conn.read_faults link) (Q.Conn.write_faults link)
        (Q.Conn.was_read link) (Q.Conn.left link) (Q.Conn.was_written link)) C.told result.0.closers.items }
{
    let (Some(server), Some(closer)) = (rows.servers.pop(), rows.closers.pop()) else {
        return (rows, share, false);
    };
    let mine = share.split_off(1, 0);
    let worker = Worker {
        alloc,
        server,
        closer,
        share: mine,
        short: false,
    };
    let one = move || -> Worker<S, C, K>
        requires { IsSync R.row × IsSend Q.row × IsSend K.row
            × ((worker.share.parts ≡ 1) × (worker.share.amount ≡ 0)) × (C.count worker.closer ≡ 0)
            × S.is_at_rest worker.server }
        ensures { (result.share.parts ≡ 1) × (C.count result.closer ≡ result.share.amount)
            × S.is_at_rest result.server × Became (S.standing worker.server) (S.standing result.server)
            × (result.short ≡ false → TellsAnswered (λ link. LinkIsAnswered S.rules
            (Q.Conn.read_faults link) (Q.Conn.write_faults link) (Q.Conn.was_read link) (Q.Conn.left link)
            (Q.Conn.was_written link)) (C.told result.closer)) }
    { work(rt, shared, worker) };
    let others = move || -> (Rows<S, C>, Share<K>, bool)
        requires { IsSync R.row × IsSend Q.row × IsSend S.row × IsSend C.row × IsSend K.row × IsSync K.row
            × ((share.parts ≡ vec_len rows.closers) × (share.amount ≡ 0))
            × (vec_len rows.servers ≡ vec_len rows.closers) × All (λ c. C.count c ≡ 0) rows.closers.items
            × All S.is_at_rest rows.servers.items }
        ensures servers { SameRoom (vec_len rows.servers) (vec_capacity rows.servers)
            (vec_len result.0.servers) (vec_capacity result.0.servers) }
        ensures closers { SameRoom (vec_len rows.closers) (vec_capacity rows.closers)
            (vec_len result.0.closers) (vec_capacity result.0.closers) }
        ensures parts { result.1.parts ≡ share.parts }
        ensures got { links_got C.count result.0.closers.items ≡ result.1.amount }
        ensures ready { All S.is_at_rest result.0.servers.items }
        ensures became { AllBecame S.standing rows.servers.items result.0.servers.items }
        ensures answered { result.2 ≡ false → AllTellAnswered
            (λ link. LinkIsAnswered S.rules (Q.Conn.read_faults link) (Q.Conn.write_faults link)
            (Q.Conn.was_read link) (Q.Conn.left link) (Q.Conn.was_written link)) C.told result.0.closers.items }
    { serve_all(rt, alloc, shared, rows, share) };
    let (done, (mut rows, mut share, short)) = thread::join(rt, one, others);
    let Worker {
        alloc: _,
        server,
        closer,
        share: mine,
        short: also_short,
    } = done;
    rows.servers.push_reserved(server);
    rows.closers.push_reserved(closer);
    share.merge(mine);
    (rows, share, either(short, also_short))
}

/// How the port's workers ended.
#[derive(Drop)]
pub struct Marks {
    pub ended: bool,
    pub failed: bool,
    pub short: bool,
}

/// The workers take connections from the port until it has ended or failed.
pub fn serve_held<
    Q: HeldPort,
    S: ServesHeads + Send + Drop,
    C: Closer<Q::Conn>,
    K: PortLedger + Send + Sync,
    R: Threads + Wait + Sync,
>(rt: &R, alloc: Global, blank: Blank, port: Q, rows: Rows<S, C>) -> (Q, Rows<S, C>, Marks)
    requires blank { (blank.name ≡ K.name) × (blank.parts ≡ K.parts) × (blank.parts ≡ vec_len rows.closers) }
    requires port { (Q.name port ≡ K.port) × (Q.given port ≡ K.given) × (Q.faults port ≡ K.faults) }
    requires lens { vec_len rows.servers ≡ vec_len rows.closers }
    requires fresh { All (λ c. C.count c ≡ 0) rows.closers.items }
    requires ready { All S.is_at_rest rows.servers.items }
    ensures name { Q.name result.0 ≡ Q.name port }
    ensures ended { result.2.ended ≡ true → Q.has_ended result.0 ≡ true }
    ensures left { result.2.ended ≡ true → ForSome (Q.left result.0) (λ links. length links ≡ 0) }
    ensures failed { result.2.failed ≡ true → Rose (Q.faults port) (Q.faults result.0) }
    ensures links { Q.given result.0 ≡ Q.given port + links_got C.count result.1.closers.items }
    ensures ready { All S.is_at_rest result.1.servers.items }
    ensures became { AllBecame S.standing rows.servers.items result.1.servers.items }
    ensures answered { result.2.short ≡ false → AllTellAnswered
        (λ link. LinkIsAnswered S.rules (Q.Conn.read_faults link) (Q.Conn.write_faults link)
        (Q.Conn.was_read link) (Q.Conn.left link) (Q.Conn.was_written link)) C.told result.1.closers.items }
    ensures lens { vec_len result.1.closers ≡ vec_len rows.closers }
{
    let (book, all) = blank.open::<K>();
    let shared = Mutex::new(SharedPort::new(port, book));
    let (rows, mut all, short) = serve_all(rt, alloc, &shared, rows, all);
    let (port, ended, failed) = shared.into_inner().close(&mut all);
    (
        port,
        rows,
        Marks {
            ended,
            failed,
            short,
        },
    )
}

/// How a port was served.
#[derive(Clone, Copy, Debug, PartialEq, Eq)]
pub enum PortEnd {
    /// The port has answered `End`, and each of its connections was served whole.
    Ended,
    /// The port has answered `Failed`.
    Failed,
    /// A connection found no memory.
    Short,
}

/// Serves all that a port gives, by as many workers as there are servers, each with the closer at its place, which got
/// nothing before.
pub fn serve_port<
    P: Port,
    S: ServesHeads + Send + Drop,
    C: Closer<P::Conn>,
    R: Threads + Wait + Sync,
>(rt: &R, alloc: Global, port: &mut P, servers: &mut Vec<S>, closers: &mut Vec<C>) -> PortEnd
    requires lens { vec_len servers.old ≡ vec_len closers.old }
    requires fresh { All (λ c. C.count c ≡ 0) closers.old.items }
    requires ready { All S.is_at_rest servers.old.items }
    ensures ended { result ≡ Ended → P.has_ended port.new ≡ true }
    ensures left { result ≡ Ended → ForSome (P.left port.new) (λ links. length links ≡ 0) }
    ensures failed { result ≡ Failed → Rose (P.faults port.old) (P.faults port.new) }
    ensures links { P.given port.new ≡ P.given port.old + links_got C.count closers.new.items }
    ensures ready { All S.is_at_rest servers.new.items }
    ensures became { AllBecame S.standing servers.old.items servers.new.items }
    ensures answered { result ≡ Ended → AllTellAnswered
        (λ link. LinkIsAnswered S.rules (P.Conn.read_faults link) (P.Conn.write_faults link)
        (P.Conn.was_read link) (P.Conn.left link) (P.Conn.was_written link)) C.told closers.new.items }
    ensures lens { vec_len closers.new ≡ vec_len closers.old }
{
    let rows = Rows {
        servers: mem::replace(servers, Vec::new(alloc)),
        closers: mem::replace(closers, Vec::new(alloc)),
    };
    let blank = Blank::new(rows.closers.len() as u64);
    let (back, rows, marks) = serve_held::<&mut P, S, C, Brand, R>(rt, alloc, blank, port, rows);
    let _ = back;
    *servers = rows.servers;
    *closers = rows.closers;
    end_of(&marks)
}

/// A fault of the port comes before want of memory. Workers stop at its end or at a fault alone.
fn end_of(marks: &Marks) -> PortEnd
    ensures ended { result ≡ Ended → (marks.now.ended ≡ true) × (marks.now.short ≡ false) }
    ensures failed { result ≡ Failed → marks.now.failed ≡ true }
{
    if marks.failed {
        PortEnd::Failed
    } else if marks.ended && !marks.short {
        PortEnd::Ended
    } else {
        PortEnd::Short
    }
}
