//! Connections over a link in memory.

ghost use Rattle.std.specs.Prelude.{◌≤◌};

use crate::line_server::LineServer;
use connection_items::End;
use lists::{Listed, Text};
use outside_links::{MemLink, OpenGate};
use std::alloc::Global;
use std::process::Abort;
use std::sync::Wait;
use std::test::Fail;
use worker::serve_connection;

fn word(end: &End<u8>) -> &'static str {
    match end {
        End::Closed => "closed",
        End::TornHead(_) => "torn",
        End::BadHead => "bad",
        End::LongHead => "long",
        End::ManyHeaders => "many",
        End::Unread => "unread",
        End::ReadFault => "read fault",
        End::WriteFault => "write fault",
        End::Full(_) => "full",
        End::Memory => "memory",
    }
}

/// The size of a piece.
fn at_least_one(piece: usize) -> usize
    ensures { 1 ≤ result }
{
    if piece == 0 { 1 } else { piece }
}

/// Serves what comes in, in pieces of a size, over a link that fails at its call of this number, up to a limit of
/// heads. Says how it ended; what was served and what was sent are compared.
fn ends<R: Wait + Abort>(
    rt: &R,
    alloc: Global,
    input: &[u8],
    piece: usize,
    fail: u64,
    limit: usize,
    served: &[u8],
    sent: &[u8],
) -> Result<&'static str, Fail> {
    let input = Text::from_bytes(alloc, input)?;
    let fails = Listed::from_slice(alloc, &[fail])?;
    let mut link = MemLink::new(alloc, input, at_least_one(piece), fails);
    let mut server = LineServer::new(alloc, limit, OpenGate::new());
    let made = serve_connection(rt, alloc, &mut server, &mut link);
    assert_eq!(rt; server.items(), served);
    assert_eq!(rt; link.written(), sent);
    assert_eq!(rt; made.receipts.as_slice(), served);
    Ok(word(&made.end))
}

#[test]
fn pipelined_heads_are_answered_in_order(rt: HostRuntime) -> Result<(), Fail> {
    let input = b"G\nH\nO\nC\nG\n".as_slice();
    let end = ends(&rt, rt.alloc(), input, 1, 0, 9, b"GHOC", b"-G--OcC")?;
    assert_eq!(rt; end, "closed");
    let end = ends(&rt, rt.alloc(), b"", 1, 0, 9, b"", b"")?;
    assert_eq!(rt; end, "closed");
    Ok(())
}

#[test]
fn connections_end_by_their_heads(rt: HostRuntime) -> Result<(), Fail> {
    let end = ends(&rt, rt.alloc(), b"G\nB\nabc", 3, 0, 9, b"GB", b"-GcB")?;
    assert_eq!(rt; end, "unread");
    let end = ends(&rt, rt.alloc(), b"G\nO", 1, 0, 9, b"G", b"-G")?;
    assert_eq!(rt; end, "torn");
    let end = ends(&rt, rt.alloc(), b"G\nOx", 2, 0, 9, b"G", b"-Gb")?;
    assert_eq!(rt; end, "bad");
    Ok(())
}

#[test]
fn connections_end_by_faults_and_limits(rt: HostRuntime) -> Result<(), Fail> {
    let end = ends(&rt, rt.alloc(), b"G\nH\nG\n", 9, 0, 1, b"G", b"-Gf")?;
    assert_eq!(rt; end, "full");
    let end = ends(&rt, rt.alloc(), b"G\nO\n", 2, 3, 9, b"G", b"-G")?;
    assert_eq!(rt; end, "read fault");
    let end = ends(&rt, rt.alloc(), b"G\nO\n", 2, 4, 9, b"GO", b"-G")?;
    assert_eq!(rt; end, "write fault");
    Ok(())
}

/// Many heads, in pieces of this size.
fn try_many<R: Wait + Abort>(
    rt: &R,
    alloc: Global,
    heads: usize,
    piece: usize,
) -> Result<(), Fail> {
    let mut bytes = Vec::new(alloc);
    for _ in 0..heads {
        bytes.push(b'G')?;
        bytes.push(b'\n')?;
    }
    let input = Text::from_bytes(alloc, bytes.as_slice())?;
    let mut link = MemLink::new(alloc, input, at_least_one(piece), Listed::new(alloc));
    let mut server = LineServer::new(alloc, heads, OpenGate::new());
    let served = serve_connection(rt, alloc, &mut server, &mut link);
    assert_eq!(rt; word(&served.end), "closed");
    assert_eq!(rt; link.written().len(), bytes.len());
    assert_eq!(rt; served.receipts.len(), heads);
    Ok(())
}

#[test]
fn many_heads_come_byte_by_byte(rt: HostRuntime) -> Result<(), Fail> {
    try_many(&rt, rt.alloc(), 100_000, 1)
}

#[test]
fn many_heads_come_in_large_pieces(rt: HostRuntime) -> Result<(), Fail> {
    try_many(&rt, rt.alloc(), 100_000, 200_000)
}
