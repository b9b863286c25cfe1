use af_audit::{AuditFault, ReportRefusal};
use af_names::Instant;
use af_ops::{Call, Served};
use af_policy::{Ask, ChangeKind, PolicyRead};
use af_sched::{Claim, Outcome};
use http_server::Log;

/// All that a session of a control has done, of each kind in order. It takes no memory: it is known in proofs alone.
#[derive(Drop)]
pub struct SessionLog {
    pub(crate) calls: Log<Call, Served>,
    pub(crate) times: Log<Instant, Served>,
    pub(crate) ticks: Log<Instant, Result<bool, AuditFault>>,
    pub(crate) claims: Log<Instant, Result<Option<Claim>, AuditFault>>,
    pub(crate) reports: Log<Claim, Result<(), ReportRefusal>>,
    pub(crate) outcomes: Log<Outcome, Instant>,
    pub(crate) mes: Log<(), Served>,
    pub(crate) reads: Log<PolicyRead, Served>,
    pub(crate) changes: Log<Ask, Served>,
    pub(crate) unreads: Log<ChangeKind, Served>,
}
