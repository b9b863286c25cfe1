//! A configuration for which there is no memory.
use super::BASE;
use super::asserts::holds;
use super::configurations::refused;
use af_server::Reason;
use std::alloc::Global;

/// Why a configuration is refused, or none where it is taken. Where there was no memory for it, it is read again.
fn refused_again(alloc: Global, config: &str) -> Option<Reason> {
    match refused(alloc, config) {
        Some(Reason::Memory) => refused(alloc, config),
        reason => reason,
    }
}

/// Memory is all that the sample configuration may be refused for, and it is taken when there is memory again.
#[test]
fn the_sample_is_refused_for_memory_alone(rt: HostRuntime) {
    let refused = refused_again(rt.alloc(), BASE);
    holds(&rt, refused.is_none(), "the sample configuration");
}
