//! Bytes of answers through real sockets, and what two connections see of one another.
use crate::tests::loopback::client::{
    address, comes, comes_last, connected, listener, send, send_last,
};
use crate::tests::loopback::running::beside;
use crate::tests::loopback::texts::{
    ADAM_ASKS_DAGS, ASKS_DAGS, DAGS, DAGS_SINCE, DEMOTED, DEMOTES, NO_DAGS,
};
use af_server::{Open, Workers};
use std::alloc::Global;
use std::io;
use std::net::{Net, SocketAddr, TcpStream};
use std::test::*;

/// Whether this is what is told on a connection where this is asked next.
pub fn is_told(alloc: Global, stream: &TcpStream, request: &str, told: &str) -> io::Result<bool> {
    send(stream, request.as_bytes())?;
    comes(alloc, stream, told)
}

/// The same, where nothing more is asked; then the server closes.
fn is_told_last(alloc: Global, stream: &TcpStream, request: &str, told: &str) -> io::Result<bool> {
    send_last(stream, request.as_bytes())?;
    comes_last(alloc, stream, told)
}

/// adam's connection is the first, vera's the second.
fn demotes(alloc: Global, first: &TcpStream, second: &TcpStream) -> io::Result<bool> {
    let before = is_told(alloc, second, ASKS_DAGS, DAGS)?;
    let change = is_told(alloc, first, DEMOTES, DEMOTED)?;
    let after = is_told_last(alloc, second, ASKS_DAGS, NO_DAGS)?;
    let own = is_told_last(alloc, first, ADAM_ASKS_DAGS, DAGS_SINCE)?;
    Ok(before && change && after && own)
}

/// Two connections, each with a worker of its own.
fn both_demote<R: Net<Stream = TcpStream>>(
    rt: &R,
    alloc: Global,
    server: SocketAddr,
) -> io::Result<bool> {
    let first = connected(rt, server)?;
    let second = connected(rt, server)?;
    demotes(alloc, &first, &second)
}

#[test]
fn a_version_decides_what_is_asked_next_on_another_connection(rt: HostRuntime) -> Result<(), Fail> {
    let (alloc, listener) = (rt.alloc(), listener(&rt)?);
    let server = address(&listener);
    let workers = Workers::new(Open, 2);
    let clients = || both_demote(&rt, alloc, server);
    beside(&rt, alloc, &workers, &listener, 1, clients, 2)
}
