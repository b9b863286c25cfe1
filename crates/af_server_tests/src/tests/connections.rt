//! Two requests on one connection, however they are cut.
use super::asserts::{Fault, all_go};
use super::{BASE, is_told};
use af_http::Ended;
use std::alloc::Global;
use std::sync::Wait;

/// What answers the viewer's first request, in 430 bytes.
const LIST: &str =
    "HTTP/1.1 200 OK\r\nContent-Type: application/json\r\nContent-Length: 321\r\nX-Policy-Version: 0\r\nX-Plane-Seq: 0\r\n\r\n{\"dags\":[{\"dag_id\":\"a\",\"is_paused\":true,\"max_active_runs\":16,\"next_dagrun\":null,\"schedule_interval\":null},{\"dag_id\":\"b\",\"is_paused\":false,\"max_active_runs\":16,\"next_dagrun\":null,\"schedule_interval\":null},{\"dag_id\":\"c\",\"is_paused\":false,\"max_active_runs\":16,\"next_dagrun\":null,\"schedule_interval\":null}],\"total_entries\":3}";

/// What answers the second, in 113 bytes.
const VERSION: &str =
    "HTTP/1.1 200 OK\r\nContent-Type: application/json\r\nContent-Length: 42\r\n\r\n{\"git_version\":null,\"version\":\"afplane 1\"}";

/// The viewer's two requests, of 66 bytes and of 41.
const TWO: &str =
    "GET /api/v1/dags HTTP/1.1\r\nHost: h\r\nAuthorization: Bearer test\r\n\r\nGET /api/v1/version HTTP/1.1\r\nHost: h\r\n\r\n";

/// The first size of pieces in which this is not what is told of an input.
fn first_size(rt: &impl Wait, alloc: Global, input: &str, told: &str) -> Option<usize> {
    for size in 1..=input.len() {
        if !is_told(rt, alloc, BASE, input.as_bytes(), size, told, Ended::Closed) {
            return Some(size);
        }
    }
    None
}

/// The same of the viewer's two requests.
fn first_size_of_two(rt: &impl Wait, alloc: Global) -> Fault {
    let told = [LIST, VERSION].concat(alloc)?;
    let fault = first_size(rt, alloc, TWO, told.as_str());
    drop(told);
    Ok(fault)
}

#[test]
fn in_pieces_of_any_size(rt: HostRuntime) {
    all_go(&rt, first_size_of_two(&rt, rt.alloc()), "in pieces of");
}
