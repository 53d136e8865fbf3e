//! Links and listeners over sockets of this machine.
use std::io::{Read, Write};
use std::net::{Ipv4Addr, Shutdown, SocketAddr, TcpListener, TcpStream};
use std::test::Fail;
use vericon_edge::fault::Failed;
use vericon_links::link::{Got, Link, write_whole};
use vericon_links::listener::{Arrival, Listener};
use vericon_links::tcp_link::TcpLink;
use vericon_links::tcp_listen::TcpListen;

#[test]
fn reads_and_writes(rt: HostRuntime) -> Result<(), Fail> {
    let listener = TcpListener::bind(&rt, SocketAddr::from((Ipv4Addr::LOCALHOST, 0)))?;
    let mut peer = TcpStream::connect(&rt, listener.local_addr()?)?;
    let (stream, _) = listener.accept()?;
    let other = stream.try_clone()?;
    assert_eq!(rt; other.nodelay()?, false);
    let mut link = TcpLink::new(stream);
    assert_eq!(rt; other.nodelay()?, true);
    drop(other);

    let mut into = [0u8; 8];
    peer.write_all(b"abc")?;
    assert_eq!(rt; link.read(&mut into), Ok(Got::Bytes(3)));
    assert_eq!(rt; &into[..3], b"abc".as_slice());
    peer.write_all(b"0123456789")?;
    assert_eq!(rt; link.read(&mut into[..6]), Ok(Got::Bytes(6)));
    assert_eq!(rt; &into[..6], b"012345".as_slice());
    assert_eq!(rt; link.read(&mut into), Ok(Got::Bytes(4)));

    assert_eq!(rt; write_whole(&mut link, b"answer"), Ok(()));
    assert_eq!(rt; link.write(b""), Ok(0));
    let mut got = [0u8; 6];
    peer.read_exact(&mut got)?;
    assert_eq!(rt; got.as_slice(), b"answer".as_slice());

    peer.shutdown(Shutdown::Write)?;
    assert_eq!(rt; link.read(&mut into), Ok(Got::Closed));
    link.shut();
    assert_eq!(rt; peer.read(&mut got)?, 0);
    assert_eq!(rt; link.read(&mut into), Err(Failed));
    assert_eq!(rt; link.write(b"more"), Err(Failed));
    Ok(())
}

#[test]
fn links_come(rt: HostRuntime) -> Result<(), Fail> {
    let mut listener = TcpListen::new(rt.clone()?);
    assert_eq!(rt; listener.accept().is_err(), true);
    assert_eq!(rt; listener.listen(0), Ok(()));
    let port = listener.port().ok_or("no port")?;
    let mut second = TcpListen::new(rt.clone()?);
    assert_eq!(rt; second.listen(port), Err(Failed));

    let mut peer = TcpStream::connect(&rt, SocketAddr::from((Ipv4Addr::LOCALHOST, port)))?;
    peer.write_all(b"hello")?;
    let Ok(Arrival::Came(mut link)) = listener.accept() else {
        return Err(Fail::from("no link"));
    };
    let mut into = [0u8; 8];
    assert_eq!(rt; link.read(&mut into), Ok(Got::Bytes(5)));
    assert_eq!(rt; write_whole(&mut link, b"hello"), Ok(()));
    listener.give_back(1, link);
    let mut got = [0u8; 5];
    peer.read_exact(&mut got)?;
    assert_eq!(rt; got.as_slice(), b"hello".as_slice());
    assert_eq!(rt; peer.read(&mut got)?, 0);
    Ok(())
}
