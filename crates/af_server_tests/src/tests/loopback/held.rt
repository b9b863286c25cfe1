//! An answer that is held holds no other worker's.
use crate::tests::asserts::holds;
use crate::tests::loopback::client::{address, asked, comes_last, listener};
use crate::tests::loopback::holding::Holding;
use crate::tests::loopback::running::beside;
use crate::tests::loopback::texts::{ASKS_DAGS, ASKS_ME, DAGS, ME};
use af_server::Workers;
use std::alloc::Global;
use std::io;
use std::net::{Net, SocketAddr, TcpStream};
use std::test::*;

/// Two calls, where the answer of the first waits for that of the second.
fn both<R: Net<Stream = TcpStream>>(
    rt: &R,
    alloc: Global,
    server: SocketAddr,
    gate: &Holding,
) -> io::Result<bool> {
    let first = asked(rt, server, ASKS_DAGS)?;
    gate.wait_for(&gate.held);
    let second = asked(rt, server, ASKS_ME)?;
    let me = comes_last(alloc, &second, ME)?;
    gate.answered.raise();
    let dags = comes_last(alloc, &first, DAGS)?;
    Ok(me && dags)
}

/// A server that serves one connection after the other holds the second call for as long as the first.
#[test]
fn an_answer_waits_for_another_workers(rt: HostRuntime) -> Result<(), Fail> {
    let (alloc, listener, gate) = (rt.alloc(), listener(&rt)?, Holding::new());
    let server = address(&listener);
    let workers = Workers::new(&gate, 2);
    let clients = || both(&rt, alloc, server, &gate);
    beside(&rt, alloc, &workers, &listener, 1, clients, 2)?;
    holds(
        &rt,
        !gate.late.is_raised(),
        "no wait yields a million times",
    );
    Ok(())
}
