use crate::tests::asserts;
use af_runs::RunFault;
use std::process::Abort;

/// Ends the test where a run found no memory, in words that say so.
pub fn run_has_memory(rt: &impl Abort, told: Result<u64, RunFault>) {
    let has_memory = told != Err(RunFault::OutOfMemory);
    asserts::has_memory(rt, has_memory, "a run is added");
}
