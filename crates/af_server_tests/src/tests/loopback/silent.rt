//! A peer that sends nothing does not keep its worker.
use crate::tests::loopback::client::{address, asked, comes_last, connected, listener};
use crate::tests::loopback::running::beside;
use crate::tests::loopback::texts::{ASKS_DAGS, DAGS};
use af_server::{Open, Workers};
use std::alloc::Global;
use std::io;
use std::net::{Net, SocketAddr, TcpStream};
use std::test::*;
use std::time::Duration;

/// For how many milliseconds a peer is waited for.
const TIME: u64 = 200;

/// A connection on which nothing is sent, and one on which something is: the first is closed without a byte, the second is answered.
fn one_is_silent<R: Net<Stream = TcpStream>>(
    rt: &R,
    alloc: Global,
    server: SocketAddr,
) -> io::Result<bool> {
    let silent = connected(rt, server)?;
    let other = asked(rt, server, ASKS_DAGS)?;
    let is_answered = comes_last(alloc, &other, DAGS)?;
    let is_closed = comes_last(alloc, &silent, "")?;
    Ok(is_answered && is_closed)
}

#[test]
fn a_silent_peer_is_left(rt: HostRuntime) -> Result<(), Fail> {
    let (alloc, listener) = (rt.alloc(), listener(&rt)?);
    let server = address(&listener);
    let workers = Workers::new(Open, 1).with_time(Duration::from_millis(TIME));
    let clients = || one_is_silent(&rt, alloc, server);
    beside(&rt, alloc, &workers, &listener, 2, clients, 2)
}
