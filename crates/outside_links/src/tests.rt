//! What the objects in memory answer, call by call.
ghost use Rattle.std.specs.Prelude.{◌≡◌, ◌<◌, ◌+◌, ◌-◌, ◌^◌, Some, All, IfOk};
ghost use Rattle.outside_links.specs.LinkState.{IsUnused};

use crate::{
    Closer, DropCloser, Gate, HoldGate, KeepCloser, Link, MemLink, MemPort, OpenGate, Point, Port,
    PortAns, send_all,
};
use lists::{Listed, Text};
use outside::{Delivery, ReadAns};
use std::alloc::{AllocError, Global};
use std::test::Fail;

fn link(alloc: Global, bytes: &[u8], fails: &[u64]) -> Result<MemLink, AllocError>
    ensures { IfOk result (λ l. IsUnused l.read_faults l.write_faults (Some l.was_read) (Some l.written)) }
{
    let bytes = Text::from_bytes(alloc, bytes)?;
    let fails = Listed::from_slice(alloc, fails)?;
    Ok(MemLink::new(alloc, bytes, 2, fails))
}

#[test]
fn a_link_counts_its_reads_and_writes_together_and_its_faults_apart(
    rt: HostRuntime,
) -> Result<(), Fail> {
    let mut link = link(rt.alloc(), b"abc", &[2, 4])?;
    let mut room = [b'.'; 4];
    assert_eq!(rt; link.read(&mut room), ReadAns::Got(2));
    assert_eq!(rt; link.read(&mut room), ReadAns::Failed);
    assert_eq!(rt; send_all(&mut link, b"xy"), Delivery::Whole);
    assert_eq!(rt; send_all(&mut link, b"z"), Delivery::Failed);
    assert_eq!(rt; link.read(&mut room), ReadAns::Got(1));
    assert_eq!(rt; link.read(&mut room), ReadAns::End);
    assert_eq!(rt; room.as_slice(), b"cb..".as_slice());
    assert_eq!(rt; link.written(), b"xy".as_slice());
    assert!(rt; !link.is_starved());
    Ok(())
}

/// A link for each text, which gives it.
fn unused_links(alloc: Global, texts: &[&[u8]]) -> Result<Vec<MemLink>, AllocError>
    ensures { IfOk result (λ links. All
        (λ l. IsUnused l.read_faults l.write_faults (Some l.was_read) (Some l.written)) links.items) }
{
    let mut links = Vec::new(alloc);
    'texts: for text in texts {
        links.push(link(alloc, text, &[])?)?;
    }
    Ok(links)
}

/// Takes the next link, sends it these bytes and closes it.
fn serve_next(
    port: &mut MemPort<MemLink>,
    keeper: &mut KeepCloser<MemLink>,
    bytes: &[u8],
) -> Result<(), Fail>
    requires { keeper.old.count < 2 ^ 64 - 1 }
    ensures { IfOk result (λ _. keeper.new.count ≡ keeper.old.count + 1) }
{
    match port.accept() {
        PortAns::Link(mut link) => {
            let _ = send_all(&mut link, bytes);
            keeper.close(link);
            Ok(())
        }
        PortAns::End | PortAns::Failed => Err(Fail::new("no link was given")),
    }
}

#[test]
fn a_port_gives_its_links_in_order_and_a_closer_keeps_the_first(
    rt: HostRuntime,
) -> Result<(), Fail> {
    let links = unused_links(rt.alloc(), &[b"first", b"second"])?;
    let mut port = MemPort::new(links, Listed::from_slice(rt.alloc(), &[1])?);
    let mut keeper = KeepCloser::new(rt.alloc(), 1)?;
    assert!(rt; matches!(port.accept(), PortAns::Failed));
    serve_next(&mut port, &mut keeper, b"0")?;
    serve_next(&mut port, &mut keeper, b"1")?;
    assert!(rt; matches!(port.accept(), PortAns::End));
    assert_eq!(rt;
        keeper.link(0).map(|link| link.written()),
        Some(b"0".as_slice())
    );
    assert!(rt; keeper.link(1).is_none());
    let mut dropper = DropCloser::new();
    dropper.close(link(rt.alloc(), b"", &[])?);
    Ok(())
}

#[test]
fn a_gate_holds_nobody_once_a_caller_was_answered(rt: HostRuntime) -> Result<(), Fail> {
    let mut first = HoldGate::new(rt.alloc())?;
    let mut second = first.share()?;
    first.at(Point::Answered);
    second.at(Point::Begun);
    assert!(rt; !first.gave_up());
    OpenGate::new().at(Point::Begun);
    Ok(())
}
