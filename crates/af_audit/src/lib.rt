//! The audit: what was done, by whom and when, as a list of entries; and the ledger, whose state is at all times what these
//! entries make of the one that it was opened with.
#![tactic(auto)]

mod act;
mod actor;
mod audit;
mod audit_fault;
mod entry;
mod entry_row;
mod event_logs;
mod last_token;
pub mod laws;
mod ledger;
mod nobody;
mod opening_state;
mod recent_tokens;
mod replaying;
mod report_refusal;
mod run_name;

pub use act::Act;
pub use actor::Actor;
pub use af_policy::Presented;
pub use audit::Audit;
pub use audit_fault::AuditFault;
pub use entry::Entry;
pub use entry_row::entries_page;
pub use event_logs::entries_text;
pub use last_token::LastToken;
pub use ledger::Ledger;
pub use recent_tokens::RecentTokens;
pub use replaying::replay;
pub use report_refusal::ReportRefusal;
pub use run_name::RunName;
