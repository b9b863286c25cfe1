//! Runs of DAGs with their task instances, in order of a number that is never used again: an addition for which memory
//! is reserved wants none.
#![tactic(auto)]

mod additions;
mod busy;
mod busy_runs;
mod chains;
mod chosen_instance;
mod chosen_tasks;
mod codes;
mod dag_lists;
mod holders;
mod index;
mod instance;
mod instances;
mod interval;
pub mod laws;
mod mark;
mod new_run;
mod optional_instant;
mod places;
mod run;
mod run_fault;
mod run_filter;
mod run_state;
mod run_type;
mod runs;
mod runs_of;
mod selection;
mod wanted;

pub use additions::Additions;
pub use busy_runs::BusyRuns;
pub use chosen_instance::ChosenInstance;
pub use chosen_tasks::ChosenTasks;
pub use holders::Holders;
pub use instance::Instance;
pub use instances::{Instances, new_instances};
pub use interval::Interval;
pub use mark::Mark;
pub use new_run::NewRun;
pub use optional_instant::OptionalInstant;
pub use run::Run;
pub use run_fault::RunFault;
pub use run_filter::RunFilter;
pub use run_state::RunState;
pub use run_type::RunType;
pub use runs::{MOST_RUNS, Runs};
pub use runs_of::RunsOf;
pub use selection::Selection;
