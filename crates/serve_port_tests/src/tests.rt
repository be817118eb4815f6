//! Two workers, and a port that fails.
ghost use Rattle.std.specs.Prelude.{◌≡◌, Some, All, IfOk, vec_len};
ghost use Rattle.outside_links.specs.LinkState.{IsUnused};

use lists::{Listed, Text};
use outside_links::{Gate, HoldGate, KeepCloser, MemLink, MemPort, Point};
use serve_port::{PortEnd, serve_port};
use std::alloc::{AllocError, Global};
use std::test::Fail;
use worker_tests::line_server::LineServer;

/// Links that ask once, and to close then.
fn links(alloc: Global, count: usize) -> Result<Vec<MemLink>, AllocError>
    ensures { IfOk result (λ links. All
        (λ l. IsUnused l.read_faults l.write_faults (Some l.was_read) (Some l.written)) links.items) }
{
    let mut links = Vec::new(alloc);
    'count: for _ in 0..count {
        let input = Text::from_bytes(alloc, b"C\n")?;
        links.push(MemLink::new(alloc, input, 1, Listed::new(alloc)))?;
    }
    Ok(links)
}

/// Closers that got nothing.
fn some_closers(alloc: Global, count: usize) -> Result<Vec<KeepCloser<MemLink>>, AllocError>
    ensures len { IfOk result (λ closers. vec_len closers ≡ count) }
    ensures fresh { IfOk result (λ closers. All (λ c. c.count ≡ 0) closers.items) }
{
    let mut closers = Vec::new(alloc);
    'count: for _i in 0..count {
        closers.push(KeepCloser::new(alloc, 2)?)?;
    }
    Ok(closers)
}

/// Servers that hold one another.
fn servers(
    alloc: Global,
    gate: &HoldGate,
    count: usize,
) -> Result<Vec<LineServer<HoldGate>>, AllocError>
    ensures { IfOk result (λ servers. vec_len servers ≡ count) }
{
    let mut servers = Vec::new(alloc);
    'count: for _i in 0..count {
        servers.push(LineServer::new(alloc, 9, gate.share()?))?;
    }
    Ok(servers)
}

/// How many links of these closers were answered.
fn answered(closers: &[KeepCloser<MemLink>]) -> u64 {
    let mut answered: u64 = 0;
    for closer in closers {
        for place in 0u32..2 {
            if let Some(link) = closer.link(place) {
                if link.written() == b"cC".as_slice() {
                    answered = answered.saturating_add(1);
                }
            }
        }
    }
    answered
}

#[test]
fn two_workers_stand_side_by_side(rt: HostRuntime) -> Result<(), Fail> {
    let alloc = rt.alloc();
    let gate = HoldGate::new(alloc)?;
    let mut port = MemPort::new(links(alloc, 2)?, Listed::new(alloc));
    let mut servers = servers(alloc, &gate, 2)?;
    let mut closers = some_closers(alloc, 2)?;
    let end = serve_port(&rt, alloc, &mut port, &mut servers, &mut closers);
    assert_eq!(rt; end, PortEnd::Ended);
    assert!(rt; !gate.gave_up());
    assert_eq!(rt; answered(closers.as_slice()), 2);
    Ok(())
}

#[test]
fn a_port_that_fails_ends_its_workers(rt: HostRuntime) -> Result<(), Fail> {
    let alloc = rt.alloc();
    let gate = HoldGate::new(alloc)?;
    gate.share()?.at(Point::Answered);
    let mut port = MemPort::new(links(alloc, 3)?, Listed::from_slice(alloc, &[2])?);
    let mut servers = servers(alloc, &gate, 1)?;
    let mut closers = some_closers(alloc, 1)?;
    let end = serve_port(&rt, alloc, &mut port, &mut servers, &mut closers);
    assert_eq!(rt; end, PortEnd::Failed);
    assert_eq!(rt; answered(closers.as_slice()), 1);
    Ok(())
}
