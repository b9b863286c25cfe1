ghost use Rattle.std.specs.Prelude.{◌≡◌, Some};
ghost use Rattle.af_sched.specs.FaultTexts.{report_text};

use std::fmt;

/// Why a report is not taken. Where several apply, the first is told.
#[derive(Clone, Copy, Debug, PartialEq, Eq)]
pub enum ReportFault {
    /// No run has the number, or its DAG has no task of the id.
    NoSuchInstance,
    /// The instance is not running.
    NotRunning,
    /// The instance runs another try than the one reported.
    WrongTry,
}

impl ReportFault {
    /// The fault's text.
    pub fn text(self) -> &'static str
        ensures { result.now ≡ report_text self }
    {
        match self {
            ReportFault::NoSuchInstance => "no such instance",
            ReportFault::NotRunning => "the instance is not running",
            ReportFault::WrongTry => "the instance runs another try",
        }
    }
}

impl fmt::Display for ReportFault {
    ghost output = { λ fault. Some (report_text fault) };

    fn fmt<W: fmt::Write>(&self, f: &mut fmt::Formatter<W>) -> fmt::Result {
        f.write_str(self.text())
    }
}
