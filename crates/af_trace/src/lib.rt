//! Traces: what was asked of a world step by step, and what was answered, as a JSON text has it; and whether the world gives these answers.
#![tactic(auto)]

mod answers;
mod asked;
mod kind;
pub mod laws;
mod members;
mod reading;
mod steps;
mod trace;
mod trace_fault;

pub use trace::Trace;
pub use trace_fault::TraceFault;
