//! Connections over TCP.
ghost use Rattle.std.specs.Prelude.{◌≡◌, ◌≤◌, None, false, length, IfOk};

use crate::input::read_some;
use outside::{ReadAns, WriteAns};
use outside_links::{Link, Port, PortAns};
use std::io;
use std::io::{ErrorKind, Write};
use std::net::{TcpListener, TcpStream};

/// A connection over TCP, which tells nothing of its bytes. It is closed where it is dropped.
#[derive(Drop)]
pub struct TcpLink {
    stream: TcpStream,
    read_faults: u64,
    write_faults: u64,
}

impl TcpLink {
    /// A link over an open connection, without faults.
    pub fn new(stream: TcpStream) -> TcpLink
        ensures reads { result.read_faults ≡ 0 }
        ensures writes { result.write_faults ≡ 0 }
    {
        TcpLink {
            stream,
            read_faults: 0,
            write_faults: 0,
        }
    }
}

/// One write, made again where the system interrupted it.
fn write_some(stream: &mut TcpStream, from: &[u8]) -> io::Result<usize>
    ensures { IfOk result (λ count. count ≤ length from.now) }
{
    for _ in 0..u64::MAX {
        match stream.write(from) {
            Ok(count) => return Ok(count),
            Err(error) => if error.kind() != ErrorKind::Interrupted {
                return Err(error);
            },
        }
    }
    Err(io::Error::from(ErrorKind::Interrupted))
}

impl Link for TcpLink {
    ghost read_faults = { λ link. link.read_faults };

    ghost write_faults = { λ link. link.write_faults };

    ghost left = { λ _. None };

    ghost was_read = { λ _. None };

    ghost was_written = { λ _. None };

    fn read(&mut self, into: &mut [u8]) -> ReadAns {
        match read_some(&mut self.stream, into) {
            Ok(0) => ReadAns::End,
            Ok(count) => ReadAns::Got(count),
            Err(_) => {
                self.read_faults = self.read_faults.saturating_add(1);
                ReadAns::Failed
            }
        }
    }

    fn write(&mut self, from: &[u8]) -> WriteAns {
        match write_some(&mut self.stream, from) {
            Ok(count) if count > 0 => WriteAns::Took(count),
            _ => {
                self.write_faults = self.write_faults.saturating_add(1);
                WriteAns::Failed
            }
        }
    }
}

/// A port of TCP connections, at most as many as it was made for.
#[derive(Drop)]
pub struct TcpPort {
    listener: TcpListener,
    most: u64,
    given: u64,
    ended: bool,
    faults: u64,
    ghost fits: { given ≤ most },
}

impl TcpPort {
    /// The connections that the listener gets, up to this number, or without end.
    pub fn new(listener: TcpListener, most: Option<u64>) -> TcpPort
        ensures given { result.given ≡ 0 }
        ensures faults { result.faults ≡ 0 }
        ensures ended { result.ended ≡ false }
    {
        TcpPort {
            listener,
            most: most.unwrap_or(u64::MAX),
            given: 0,
            ended: false,
            faults: 0,
        }
    }
}

/// The next connection. One that the client has given up, or a wait that the system interrupted, is passed over.
fn next_stream(listener: &TcpListener) -> io::Result<TcpStream> {
    for _ in 0..u64::MAX {
        match listener.accept() {
            Ok((stream, _)) => return Ok(stream),
            Err(error) => if !is_passing(&error) {
                return Err(error);
            },
        }
    }
    Err(io::Error::from(ErrorKind::Interrupted))
}

fn is_passing(error: &io::Error) -> bool {
    matches!(
        error.kind(),
        ErrorKind::Interrupted | ErrorKind::ConnectionAborted
    )
}

impl Port for TcpPort {
    type Conn = TcpLink;

    ghost given = { λ port. port.given };

    ghost faults = { λ port. port.faults };

    ghost has_ended = { λ port. port.ended };

    ghost left = { λ _. None };

    fn accept(&mut self) -> PortAns<TcpLink> {
        if self.given >= self.most {
            self.ended = true;
            return PortAns::End;
        }
        match next_stream(&self.listener) {
            Ok(stream) => {
                self.given += 1;
                PortAns::Link(TcpLink::new(stream))
            }
            Err(_) => {
                self.faults = self.faults.saturating_add(1);
                PortAns::Failed
            }
        }
    }
}
