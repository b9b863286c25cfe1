ghost use Rattle.std.specs.Prelude.{◌≡◌, Some};
ghost use Rattle.af_runs.specs.Runs.{is_finished};
ghost use Rattle.af_runs.specs.Texts.{state_of, state_text};

/// The state of a run (Airflow 2, "DAG Runs": DAG Run Status).
#[derive(Clone, Copy, Debug, PartialEq, Eq)]
pub enum RunState {
    /// It waits until its DAG may have one more run running.
    Queued,
    /// Its instances are settled and queued.
    Running,
    /// It has ended well.
    Success,
    /// It has ended with a fault.
    Failed,
}

impl RunState {
    /// The state of that text, or none where no state has it.
    pub fn read(text: &str) -> Option<RunState>
        ensures { result ≡ state_of text.now }
    {
        match text {
            "queued" => Some(RunState::Queued),
            "running" => Some(RunState::Running),
            "success" => Some(RunState::Success),
            "failed" => Some(RunState::Failed),
            _ => None,
        }
    }

    /// The text of the state, which `read` reads back.
    pub fn as_str(self) -> &'static str
        ensures text { result.now ≡ state_text self }
        ensures read_back { state_of result.now ≡ Some self }
    {
        match self {
            RunState::Queued => "queued",
            RunState::Running => "running",
            RunState::Success => "success",
            RunState::Failed => "failed",
        }
    }

    /// Whether the run has ended: success or failed.
    pub fn is_finished(self) -> bool
        ensures { result ≡ is_finished self }
    {
        match self {
            RunState::Queued | RunState::Running => false,
            RunState::Success | RunState::Failed => true,
        }
    }
}
