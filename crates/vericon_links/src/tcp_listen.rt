//! A listener on a port of the machine.
ghost use Rattle.std.specs.Prelude.{◌≡◌, ◌<◌, ◌≤◌, false, None};

use crate::listener::{Arrival, Listener};
use crate::tcp_link::TcpLink;
use std::io;
use std::io::ErrorKind;
use std::net::{Ipv4Addr, Ipv6Addr, Net, SocketAddr, TcpListener, TcpStream};
use vericon_edge::fault::Failed;

/// A listener on a port of every local address. Nothing is told of the links given back, which are closed then.
#[derive(Drop)]
pub struct TcpListen<R: Net<Listener = TcpListener, Stream = TcpStream> + Send + Drop> {
    rt: R,
    listener: Option<TcpListener>,
    uses: u64,
    came: u64,
    back: u64,
    ended: bool,
    faults: u64,
}

impl<R: Net<Listener = TcpListener, Stream = TcpStream> + Send + Drop> TcpListen<R> {
    /// A listener over this runtime. It doesn't listen yet.
    pub fn new(rt: R) -> TcpListen<R>
        ensures uses { result.uses ≡ 0 }
        ensures came { result.came ≡ 0 }
        ensures back { result.back ≡ 0 }
        ensures ended { result.ended ≡ false }
        ensures faults { result.faults ≡ 0 }
    {
        TcpListen {
            rt,
            listener: None,
            uses: 0,
            came: 0,
            back: 0,
            ended: false,
            faults: 0,
        }
    }

    /// The port on which it listens, as the system says.
    pub fn port(&self) -> Option<u16> {
        match self.listener.as_ref()?.local_addr() {
            Ok(address) => Some(address.port()),
            Err(_) => None,
        }
    }
}

/// Listens on a port of every local address: by IPv6, which serves IPv4, too, or where the machine has none, by IPv4.
fn bind<R: Net<Listener = TcpListener, Stream = TcpStream>>(
    rt: &R,
    port: u16,
) -> io::Result<TcpListener> {
    match rt.bind(SocketAddr::from((Ipv6Addr::UNSPECIFIED, port))) {
        Ok(listener) => Ok(listener),
        Err(error) if error.kind() == ErrorKind::AddrInUse => Err(error),
        Err(_) => rt.bind(SocketAddr::from((Ipv4Addr::UNSPECIFIED, port))),
    }
}

/// Accepts once, and again where the connection was gone before it was taken.
fn accept_some(listener: &TcpListener) -> Result<TcpStream, Failed> {
    for _turn in 0..u64::MAX {
        match listener.accept() {
            Ok((stream, _)) => return Ok(stream),
            Err(error) if error.kind() == ErrorKind::ConnectionAborted => {}
            Err(_) => return Err(Failed),
        }
    }
    Err(Failed)
}

impl<R: Net<Listener = TcpListener, Stream = TcpStream> + Send + Drop> Listener for TcpListen<R> {
    type Link = TcpLink;

    ghost uses = { λ l. l.uses };

    ghost came = { λ l. l.came };

    ghost back = { λ l. l.back };

    ghost ended = { λ l. l.ended };

    ghost faults = { λ l. l.faults };

    ghost given = { λ _. None };

    fn listen(&mut self, port: u16) -> Result<(), Failed> {
        self.uses = self.uses.saturating_add(1);
        match bind(&self.rt, port) {
            Ok(listener) => {
                self.listener = Some(listener);
                Ok(())
            }
            Err(_) => {
                self.faults = self.faults.saturating_add(1);
                Err(Failed)
            }
        }
    }

    /// No link closes the listener. It fails where it doesn't listen.
    fn accept(&mut self) -> Result<Arrival<TcpLink>, Failed> {
        self.uses = self.uses.saturating_add(1);
        let answer = match &self.listener {
            Some(listener) => accept_some(listener),
            None => Err(Failed),
        };
        match answer {
            Ok(stream) => {
                self.came += 1;
                Ok(Arrival::Came(TcpLink::new(stream)))
            }
            Err(fault) => {
                self.faults = self.faults.saturating_add(1);
                Err(fault)
            }
        }
    }

    fn give_back(&mut self, _number: u32, link: TcpLink) {
        drop(link);
        self.back += 1;
    }
}
