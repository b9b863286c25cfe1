//! The world of users, administrators, executors and the scheduler, step by step; and the laws of all its runs.
#![tactic(auto)]

mod asking;
pub mod laws;
mod opening;
mod policy_answering;
mod reporting;
mod same;
mod session;
mod step;
mod telling;
mod token;
mod trace;
mod try_report;
mod versions;
mod world;

pub use opening::Opening;
pub use policy_answering::answer_policy;
pub use reporting::Reporting;
pub use session::Seen;
pub use step::Step;
pub use token::Token;
pub use trace::check_trace;
pub use try_report::TryReport;
pub use versions::Versions;
pub use world::World;
