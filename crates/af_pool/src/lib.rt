//! Pools of slots, by name: one is always there, and an addition for which memory is reserved wants none.
#![tactic(auto)]

mod copying;
mod fault;
pub mod laws;
mod names_pools;
mod occupant;
mod pool;
mod pools;

pub use fault::PoolFault;
pub use names_pools::NamesPools;
pub use occupant::Occupant;
pub use pool::Pool;
pub use pools::{DEFAULT_POOL, MOST_POOLS, Pools};
