//! What a client sends and gets.
use af_server::{Listener, Ports};
use std::alloc::Global;
use std::io;
use std::io::{Read, Write};
use std::net::{IpAddr, Ipv4Addr, Net, Shutdown, SocketAddr, TcpStream};
use std::time::Duration;

/// For how many seconds a client waits for an answer.
const TIME: u64 = 20;

/// A listener at a port of its own.
pub fn listener<R: Ports>(rt: &R) -> io::Result<Listener> {
    match rt.listen(0) {
        Ok(listener) => Ok(listener),
        Err(error) => Err(io::Error::from(error)),
    }
}

/// Where a listener is.
pub fn address(listener: &Listener) -> SocketAddr {
    let local = IpAddr::V4(Ipv4Addr::new(127, 0, 0, 1));
    SocketAddr::new(local, listener.port())
}

/// A connection to a server.
pub fn connected<R: Net<Stream = TcpStream>>(rt: &R, server: SocketAddr) -> io::Result<TcpStream> {
    let stream = TcpStream::connect(rt, server)?;
    stream.set_read_timeout(Some(Duration::from_secs(TIME)))?;
    Ok(stream)
}

/// Sends bytes.
pub fn send(stream: &TcpStream, bytes: &[u8]) -> io::Result<()> {
    (&mut &*stream).write_all(bytes)
}

/// Sends the last bytes of a connection.
pub fn send_last(stream: &TcpStream, bytes: &[u8]) -> io::Result<()> {
    send(stream, bytes)?;
    stream.shutdown(Shutdown::Write)
}

/// A connection to a server on which this is sent, and no more.
pub fn asked<R: Net<Stream = TcpStream>>(
    rt: &R,
    server: SocketAddr,
    request: &str,
) -> io::Result<TcpStream> {
    let stream = connected(rt, server)?;
    send_last(&stream, request.as_bytes())?;
    Ok(stream)
}

/// Whether what comes next is this text.
pub fn comes(alloc: Global, stream: &TcpStream, text: &str) -> io::Result<bool> {
    let mut bytes = Vec::from_slice(alloc, text.as_bytes())?;
    bytes.as_mut_slice().fill(0);
    (&mut &*stream).read_exact(bytes.as_mut_slice())?;
    Ok(bytes.as_slice() == text.as_bytes())
}

/// All that comes until the server closes.
pub fn rest(alloc: Global, stream: &TcpStream) -> io::Result<Vec<u8>> {
    let mut all = Vec::new(alloc);
    (&mut &*stream).read_to_end(&mut all)?;
    Ok(all)
}

/// Whether this text comes, and the server then closes.
pub fn comes_last(alloc: Global, stream: &TcpStream, text: &str) -> io::Result<bool> {
    let all = rest(alloc, stream)?;
    let comes = all.as_slice() == text.as_bytes();
    drop(all);
    Ok(comes)
}
