use crate::audit_fault::AuditFault;
use af_sched::ReportFault;

/// Why a report is not taken. A report's own faults are told before those of the audit.
#[derive(Clone, Copy, Debug, PartialEq, Eq)]
pub enum ReportRefusal {
    /// The report itself is refused.
    Fault(ReportFault),
    /// There is no room, or no memory, for its entry.
    Audit(AuditFault),
}
