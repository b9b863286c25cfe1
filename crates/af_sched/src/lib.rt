//! What one tick does to a scheduler's state at a moment, what a backfill adds to it, and how an executor claims instances and
//! reports outcomes.
#![tactic(auto)]

mod add_dag_fault;
mod backfill;
mod busy;
mod claim;
mod counting;
mod dag_row;
mod dag_table;
mod dags;
mod executor;
mod guesses;
mod held;
pub mod laws;
mod outcome;
mod placed;
mod plan;
mod report_fault;
mod script;
mod scripted;
mod seat;
mod state;
mod tick;

pub use add_dag_fault::AddDagFault;
pub use backfill::next_within;
pub use claim::Claim;
pub use dag_row::DagRow;
pub use executor::Executor;
pub use held::Held;
pub use outcome::Outcome;
pub use plan::Plan;
pub use report_fault::ReportFault;
pub use script::Script;
pub use scripted::Scripted;
pub use state::State;
