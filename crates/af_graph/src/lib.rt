//! The graph of a DAG's tasks: what is upstream of what, the one order in which tasks are settled, and the trigger rules.
#![tactic(auto)]

mod counts;
mod dag;
mod dag_fault;
mod dag_spec;
mod index;
pub mod laws;
mod links;
mod misfit;
mod multiples;
mod plain;
mod rule;
mod schedule;
mod taking;
mod task_spec;
mod task_state;
mod verdict;
mod wiring;

pub use counts::Counts;
pub use dag::Dag;
pub use dag_fault::DagFault;
pub use dag_spec::DagSpec;
pub use rule::Rule;
pub use schedule::{Points, Schedule};
pub use task_spec::{TaskIds, TaskSpec, TaskSpecs};
pub use task_state::TaskState;
pub use verdict::{Verdict, ready};
pub use wiring::{MOST_SLOTS, MOST_TASKS};
