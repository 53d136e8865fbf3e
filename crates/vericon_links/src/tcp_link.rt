//! A link over a socket.
ghost use Rattle.std.specs.Prelude.{◌≡◌, ◌<◌, ◌≤◌, false, None, length, IfOk};
ghost use Rattle.vericon_links.specs.Links.{GivesSome};

use crate::link::{Got, Link};
use std::io::{ErrorKind, Read, Write};
use std::net::TcpStream;
use vericon_edge::fault::Failed;

/// A link over a socket. Nothing is told of its bytes.
#[derive(Drop)]
pub struct TcpLink {
    /// The socket, until the link is shut.
    stream: Option<TcpStream>,
    closed: bool,
    is_shut: bool,
    read_faults: u64,
    write_faults: u64,
}

impl TcpLink {
    /// A link over this stream. What is written is sent at once, where the system lets it.
    pub fn new(stream: TcpStream) -> TcpLink
        ensures closed { result.closed ≡ false }
        ensures is_shut { result.is_shut ≡ false }
        ensures read_faults { result.read_faults ≡ 0 }
        ensures write_faults { result.write_faults ≡ 0 }
    {
        // a stream that can't be told so serves as well, only later
        let _ = stream.set_nodelay(true);
        TcpLink {
            stream: Some(stream),
            closed: false,
            is_shut: false,
            read_faults: 0,
            write_faults: 0,
        }
    }
}

/// Reads once, and again where a signal interrupted it.
fn read_some<S: Read>(stream: &mut S, into: &mut [u8]) -> Result<Got, Failed>
    requires { 0 < length into.old }
    ensures within { IfOk result (GivesSome (length into.new)) }
{
    for _turn in 0..u64::MAX {
        match stream.read(into) {
            Ok(0) => return Ok(Got::Closed),
            Ok(width) => return Ok(Got::Bytes(width)),
            Err(error) if error.kind() == ErrorKind::Interrupted => {}
            Err(_) => return Err(Failed),
        }
    }
    Err(Failed)
}

/// Writes once, and again where a signal interrupted it.
fn write_some<S: Write>(stream: &mut S, piece: &[u8]) -> Result<usize, Failed>
    ensures within { IfOk result (λ width. width ≤ length piece.now) }
    ensures some { IfOk result (λ width. 0 < length piece.now → 0 < width) }
{
    for _turn in 0..u64::MAX {
        match stream.write(piece) {
            Ok(width) if width > 0 || piece.is_empty() => return Ok(width),
            Ok(_) => return Err(Failed),
            Err(error) if error.kind() == ErrorKind::Interrupted => {}
            Err(_) => return Err(Failed),
        }
    }
    Err(Failed)
}

impl Link for TcpLink {
    ghost taken = { λ _. None };

    ghost written = { λ _. None };

    ghost closed = { λ k. k.closed };

    ghost is_shut = { λ k. k.is_shut };

    ghost read_faults = { λ k. k.read_faults };

    ghost write_faults = { λ k. k.write_faults };

    fn read(&mut self, into: &mut [u8]) -> Result<Got, Failed> {
        let answer = match &mut self.stream {
            Some(stream) => read_some(stream, into),
            None => Err(Failed),
        };
        match answer {
            Ok(Got::Bytes(_)) => {}
            Ok(Got::Closed) => self.closed = true,
            Err(_) => self.read_faults = self.read_faults.saturating_add(1),
        }
        answer
    }

    fn write(&mut self, piece: &[u8]) -> Result<usize, Failed> {
        let answer = match &mut self.stream {
            Some(stream) => write_some(stream, piece),
            None => Err(Failed),
        };
        if answer.is_err() {
            self.write_faults = self.write_faults.saturating_add(1);
        }
        answer
    }

    /// Closes the socket.
    fn shut(&mut self) {
        self.stream = None;
        self.is_shut = true;
    }
}
