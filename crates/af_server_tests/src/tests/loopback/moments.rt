//! What one connection does is in the event logs that another reads, at the time of the clock.
use crate::tests::loopback::client::{address, connected, listener, rest, send_last};
use crate::tests::loopback::connections::is_told;
use crate::tests::loopback::running::beside;
use crate::tests::loopback::texts::{ASKS_B, ASKS_LOGS, PAUSED, PAUSES};
use af_names::Instant;
use af_server::{Open, Workers, time_now};
use std::alloc::{AllocError, Global};
use std::net::{Net, SocketAddr, TcpStream};
use std::test::*;
use std::time::Clock;
use std::{io, str};

/// What stands before the moment and behind it.
const BEFORE: &str =
    r#"{"event_logs":[{"dag_id":"b","event":"patch_dag","event_log_id":1,"owner":"uma","policy_version":0,"run_id":null,"task_id":null,"when":""#;

const BEHIND: &str = r#""}],"total_entries":1}"#;

/// The answer of the event logs, where uma has paused b at a moment.
fn logs(alloc: Global, when: &str) -> Result<String, AllocError> {
    let body = [BEFORE, when, BEHIND].concat(alloc)?;
    let length = body.len();
    format!(in alloc;
        "HTTP/1.1 200 OK\r\nContent-Type: application/json\r\nContent-Length: {length}\r\nX-Policy-Version: 0\r\nX-Plane-Seq: 1\r\n\r\n{body}"
    )
}

/// Whether an answer is that of the event logs, at this moment.
fn is_at(alloc: Global, told: &[u8], when: &str) -> Result<bool, AllocError> {
    let text = logs(alloc, when)?;
    let is_at = told == text.as_bytes();
    drop(text);
    Ok(is_at)
}

/// The text of the moment in an answer that ends as it should.
fn when_in(told: &[u8]) -> Option<&str> {
    let rest = told.strip_suffix(BEHIND.as_bytes())?;
    let quote = rest.iter().rposition(|byte| *byte == b'"')?;
    str::from_utf8(rest.get(quote.checked_add(1)?..)?).ok()
}

/// Whether an answer is that of the event logs, at a moment from the first on and up to the last.
fn is_between(
    alloc: Global,
    told: &[u8],
    first: Instant,
    last: Instant,
) -> Result<bool, AllocError> {
    let Some(when) = when_in(told) else {
        return Ok(false);
    };
    match Instant::read(when) {
        Ok(at) => Ok(first <= at && at <= last && is_at(alloc, told, when)?),
        Err(_) => Ok(false),
    }
}

/// uma's connection is the first; on the second vera asks for the DAG, and adam for the event logs.
fn pauses<R: Clock>(
    rt: &R,
    alloc: Global,
    first: &TcpStream,
    second: &TcpStream,
) -> io::Result<bool> {
    let start = time_now(rt);
    let once = is_told(alloc, first, PAUSES, PAUSED)?;
    let again = is_told(alloc, first, PAUSES, PAUSED)?;
    let seen = is_told(alloc, second, ASKS_B, PAUSED)?;
    send_last(second, ASKS_LOGS.as_bytes())?;
    let told = rest(alloc, second)?;
    let logged = is_between(alloc, told.as_slice(), start, time_now(rt))?;
    drop(told);
    Ok(once && again && seen && logged)
}

/// Two connections, each with a worker of its own.
fn both_pause<R: Net<Stream = TcpStream> + Clock>(
    rt: &R,
    alloc: Global,
    server: SocketAddr,
) -> io::Result<bool> {
    let first = connected(rt, server)?;
    let second = connected(rt, server)?;
    pauses(rt, alloc, &first, &second)
}

#[test]
fn a_change_is_seen_on_another_connection(rt: HostRuntime) -> Result<(), Fail> {
    let (alloc, listener) = (rt.alloc(), listener(&rt)?);
    let server = address(&listener);
    let workers = Workers::new(Open, 2);
    let clients = || both_pause(&rt, alloc, server);
    beside(&rt, alloc, &workers, &listener, 1, clients, 2)
}
